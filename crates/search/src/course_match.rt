// The segment of the followed course that the rider is on.

ghost use Rattle.std.specs.Prelude.{◌≡◌, ◌≤◌, ◌<◌, length};
ghost use Rattle.segments.specs.Cost.{on};
ghost use Rattle.search.specs.CourseMatch.{after_gap, around, in_reach, on_near, slides_back, settled, nearest_on_course};
ghost use Rattle.search.specs.Along.{ends};

use crate::{Range, quick};
use crumbs::held::Crumbs;
use plane::Point;
use segments::costs::{Nearest, Ranking};
use segments::{Stretch, costs, turns};

// The match moves at most this far on towards the course's end in one fix.
const JUMP_M: f32 = 500.0;

// The match moves back only this far behind where it was.
const BACK_M: f32 = 25.0;

// The stretch this little on from where the rider was is matched first.
const NEAR_M: f32 = 100.0;

// A fix this far from the last one matched follows a gap.
const HOP_M: f32 = 40.0;

// How far the rider has come on the course, in metres to its end where last matched and at the
// furthest, with the fix last matched and the heading.
#[derive(Clone, Copy)]
pub struct Progress {
    pub along: f32,
    pub reached: f32,
    pub fix: Option<Point>,
    pub heading: Option<u16>,
}

// Whether `p` follows a gap in the fixes: the rider may be past the near stretch.
fn after_gap(fix: Option<Point>, p: Point) -> bool
    ensures { result ≡ after_gap fix p }
{
    fix.is_none_or(|last| plane::distance(last, p) > HOP_M)
}

// From `on` metres ahead of a place on the course to `BACK_M` behind it.
fn around(along: f32, on: f32) -> Stretch
    ensures { result ≡ around along on }
{
    Stretch {
        floor: along - on,
        ceiling: along + BACK_M,
    }
}

// The best segment that the rider can have come to, or gone back to, in one fix.
fn in_reach(line: &Crumbs, p: Point, ends: Range, along: f32, by: Ranking) -> Option<Nearest>
    requires { (1 ≤ ends.from) × (ends.to < length line.now) }
    ensures { result ≡ in_reach line.now p ends along by }
{
    quick::nearest_within(line, p, ends, around(along, JUMP_M), by)
}

// The pass of the near stretch that the rider is on.
fn on_near(line: &Crumbs, p: Point, ends: Range, was: Progress) -> Option<Nearest>
    requires { (1 ≤ ends.from) × (ends.to < length line.now) }
    ensures { result ≡ on_near line.now p ends was }
{
    let by = Ranking::On {
        reached: was.reached,
        heading: was.heading,
    };
    quick::nearest_within(line, p, ends, around(was.along, NEAR_M), by)
}

// Whether a match slides back against the rider's way.
fn slides_back(line: &Crumbs, was: Progress, near: Nearest) -> bool
    requires { (1 ≤ near.end) × (near.end < length line.now) }
    ensures { result ≡ slides_back line.now was near }
{
    if near.along > was.reached + costs::SLIP_M {
        let end = near.end;
        return turns::against(was.heading, line.crumb(end - 1), line.crumb(end));
    }
    false
}

// The match on the near stretch settled: sliding back against the rider's way, a pass ridden its own
// way close by is the one they are on.
fn settled(line: &Crumbs, p: Point, ends: Range, was: Progress, near: Nearest) -> Option<Nearest>
    requires le_from { (1 ≤ ends.from) × (ends.to < length line.now) }
    requires le_end { (1 ≤ near.end) × (near.end < length line.now) }
    ensures { result ≡ settled line.now p ends was near }
{
    if slides_back(line, was, near) {
        let ahead = in_reach(
            line,
            p,
            ends,
            was.along,
            Ranking::Ahead {
                heading: was.heading,
            },
        );
        return ahead.or(Some(near));
    }
    Some(near)
}

// The segment of the followed course that the rider is on.
pub fn nearest_on_course(line: &Crumbs, p: Point, ends: Range, was: Progress) -> Option<Nearest>
    requires { (1 ≤ ends.from) × (ends.to < length line.now) }
    ensures { result ≡ nearest_on_course line.now p ends was }
{
    if after_gap(was.fix, p) {
        return in_reach(line, p, ends, was.along, Ranking::Plain);
    }
    let Some(near) = on_near(line, p, ends, was) else {
        return in_reach(line, p, ends, was.along, Ranking::Plain);
    };
    settled(line, p, ends, was, near)
}
