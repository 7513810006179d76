// The followed line: the match of a fix on it, and the way on along it.

ghost use Rattle.std.specs.Prelude.{◌≡◌, ◌≤◌, ◌<◌, length};
ghost use Rattle.binary32.specs.Arithmetic.{◌⊖◌};
ghost use Rattle.binary32.specs.Limits.{max_zero};
ghost use Rattle.search.specs.Along.{at_along};
ghost use Rattle.matching.specs.Distances.{lookahead_m};
ghost use Rattle.matching.specs.Followed.{followed_on, nearest, widened, way_on};
ghost use Rattle.matching.specs.View.{IsFollowedBy, WhereFollowed, match_in};

use crate::distances;
use crumbs::held::Crumbs;
use plane::Point;
use search::course_match::Progress;
use search::{Range, course_match, rows};
use segments::costs::Nearest;
use state::{Homing, Line, Mode};

// What is followed: which line, and its crumbs, the segment last matched, whether the rider was off the line, and how far on the course.
#[derive(Clone, Copy)]
pub struct Followed<'a> {
    pub on: Line,
    pub line: &'a Crumbs<'a>,
    pub segment: usize,
    pub off: bool,
    pub was: Progress,
}

// Where to ride, and how far it is.
#[derive(Clone, Copy)]
pub struct Way {
    pub mode: Mode,
    pub track: f32,
    pub off: f32,
    pub target: Point,
}

// The crumbs of the followed line: the course while it is followed, else the breadcrumb.
fn followed_on<'a>(on: Line, course: &'a Crumbs<'a>, crumbs: &'a Crumbs<'a>) -> &'a Crumbs<'a>
    ensures { result.now ≡ followed_on on course.now crumbs.now }
{
    match on {
        Line::Course => course,
        Line::Nothing | Line::Breadcrumb => crumbs,
    }
}

// What is followed in a state, with its two lines.
pub fn followed_by<'a>(h: &Homing, course: &'a Crumbs<'a>, crumbs: &'a Crumbs<'a>) -> Followed<'a>
    ensures { IsFollowedBy h.now.follow h.now.course h.now.motion.heading course.now crumbs.now result }
{
    Followed {
        on: h.follow.line,
        line: followed_on(h.follow.line, course, crumbs),
        segment: h.follow.segment,
        off: h.follow.off,
        was: Progress {
            along: h.course.along,
            reached: h.course.reached,
            fix: h.course.fix,
            heading: h.motion.heading,
        },
    }
}

// The followed line's nearest segment to p.
fn nearest(f: &Followed, p: Point, ends: Range) -> Option<Nearest>
    requires { (1 ≤ ends.from) × (ends.to < length f.now.line.now) }
    ensures { WhereFollowed f.now (λ course s. result ≡ nearest s.follow.line course p ends s) }
{
    match f.on {
        Line::Course => course_match::nearest_on_course(f.line, p, ends, f.was),
        Line::Nothing | Line::Breadcrumb => rows::nearest_on_breadcrumb(f.line, p, ends),
    }
}

// Off the line the whole of it is searched.
fn widened(f: &Followed, p: Point, near: Nearest) -> Nearest
    requires { 2 ≤ length f.now.line.now }
    ensures { WhereFollowed f.now (λ course s. result ≡ widened course p near s) }
{
    if crate::lost(f.off, near.off) {
        let ends = Range {
            from: 1,
            to: f.line.len() - 1,
        };
        return crate::nearer(near, nearest(f, p, ends));
    }
    near
}

// The match of a fix at p: around the last one, or off the line on the whole of it.
pub fn matched(f: &Followed, p: Point) -> Option<Nearest>
    requires { (2 ≤ length f.now.line.now) × (f.now.segment < length f.now.line.now) }
    ensures { WhereFollowed f.now (λ course s. result ≡ match_in course p s) }
{
    let ends = Range {
        from: crate::search_from(f.segment),
        to: crate::search_to(f.segment, f.line.len()),
    };
    let near = nearest(f, p, ends)?;
    Some(widened(f, p, near))
}

// The point a little way ahead on the followed line.
fn ahead(line: &Crumbs, near: Nearest) -> Point
    requires { (1 ≤ near.end) × (near.end < length line.now) }
    ensures { result ≡ at_along line.now near.end (max_zero (near.along ⊖ lookahead_m)) }
{
    let along = binary32::max_zero(near.along - distances::LOOKAHEAD_M);
    search::at_along(line, near.end, along)
}

// Off the line the way is back to it; on it, to a point a little way ahead.
pub fn way_on(line: &Crumbs, off: bool, near: Nearest) -> Way
    requires { (1 ≤ near.end) × (near.end < length line.now) }
    ensures { result ≡ way_on off line.now near }
{
    let track = near.along + near.off;
    if off {
        return Way {
            mode: Mode::OffTrack,
            track,
            off: near.off,
            target: near.point,
        };
    }
    Way {
        mode: Mode::Track,
        track,
        off: near.off,
        target: ahead(line, near),
    }
}
