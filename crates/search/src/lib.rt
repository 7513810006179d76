// Searches on a whole line of crumbs: the segment nearest a position, the place a way along. `quick` finds the
// nearest one with two roots in all, `rows` that of the breadcrumb sixteen segments at a time; `course_match` the segment of the
// followed course that the rider is on.
#![tactic(auto)]

pub mod course_match;
pub mod quick;
pub mod rows;

ghost use Rattle.std.specs.Prelude.{◌≡◌, ◌≤◌, ◌<◌, length};
ghost use Rattle.search.specs.Search.{anywhere, nearest_on_breadcrumb, nearest_within};
ghost use Rattle.search.specs.Course.{closer, course_near, joins, joined};
ghost use Rattle.search.specs.Along.{share_along, point_along, at_along, ends};

use crumbs::Crumb;
use crumbs::held::Crumbs;
use plane::{Point, squares};
use segments::costs::{Nearest, Ranking};
use segments::{Stretch, costs, turns};

// A rider less than this off the course, and riding its way, joins it.
const JOIN_M: f32 = 25.0;

// The ends that a search tries, both included.
#[derive(Clone, Copy)]
pub struct Range {
    pub from: usize,
    pub to: usize,
}

// All of f32's range.
fn anywhere() -> Stretch
    ensures { result ≡ anywhere }
{
    Stretch {
        floor: f32::MIN,
        ceiling: f32::MAX,
    }
}

// The nearest segment of the breadcrumb; on a tie the one nearer home. The first segment ends at crumb 1, so each search asks for ends from
// 1 on. As an invariant of `Range` that would leave half of the clause, which bounds the ends by the line; and a struct of a line and its
// ends each caller would build for one search, which would take it apart again.
pub fn nearest_on_breadcrumb(line: &Crumbs, p: Point, ends: Range) -> Option<Nearest>
    requires { (1 ≤ ends.from) × (ends.to < length line.now) }
    ensures { result ≡ nearest_on_breadcrumb line.now p ends }
{
    let within = anywhere();
    let mut best = None;
    for end in ends.from..=ends.to {
        let a = line.crumb(end - 1);
        let b = line.crumb(end);
        best = segments::consider(a, b, p, within, Ranking::Plain, end, best);
    }
    segments::found(best)
}

// The segment of the course reaching into the stretch that costs least; on a tie the earlier ridden.
pub fn nearest_within(
    line: &Crumbs,
    p: Point,
    ends: Range,
    within: Stretch,
    by: Ranking,
) -> Option<Nearest>
    requires { (1 ≤ ends.from) × (ends.to < length line.now) }
    ensures { result ≡ nearest_within line.now p ends within by }
{
    // That the length fits a usize bounds the sum below.
    let _ = line.len();
    let mut best = None;
    // Not by `..=`: downwards its step takes four instructions more, 42 for 38 where the segment may not cost.
    for end in (ends.from..ends.to + 1).rev() {
        let a = line.crumb(end - 1);
        let b = line.crumb(end);
        if segments::may_cost(a, b, p, within, by) {
            best = segments::consider(a, b, p, within, by, end, best);
        }
    }
    segments::found(best)
}

// The course's nearest segment if it lies within `most` metres.
pub fn course_near(line: &Crumbs, p: Point, most: f32) -> Option<Nearest>
    ensures { result ≡ course_near line.now p most }
{
    let mut best = None;
    for end in (1..line.len()).rev() {
        let near = segments::nearest_on(line, p, end);
        best = segments::cheaper(best, near, costs::plain(near));
    }
    closer(most, segments::found(best))
}

// A found segment that lies within `most` metres.
fn closer(most: f32, best: Option<Nearest>) -> Option<Nearest>
    ensures { result ≡ closer most best }
{
    best.filter(|near| near.off <= most)
}

// Whether a rider at `p` rides along the course from `b` to `a`.
fn joins(p: Point, heading: u16, a: Crumb, b: Crumb) -> bool
    ensures { result ≡ joins p heading a b }
{
    let from = Point::from(a);
    let to = Point::from(b);
    if !(squares::off_square(p, from, to) < costs::FAR) {
        return false;
    }
    if plane::off_segment(p, from, to) < JOIN_M {
        return turns::same_way(heading, a, b);
    }
    false
}

// The earliest ridden segment of the course that a rider at `p` rides along.
pub fn joined(line: &Crumbs, p: Point, heading: u16) -> Option<usize>
    ensures { result ≡ joined line.now p heading }
{
    for end in (1..line.len()).rev() {
        if joins(p, heading, line.crumb(end - 1), line.crumb(end)) {
            return Some(end);
        }
    }
    None
}

// How far along the segment from `a` to `b` the place `along` lies, 0 to 1.
fn share_along(a: Crumb, b: Crumb, along: f32) -> f32
    ensures { result ≡ share_along a b along }
{
    let span = b.along - a.along;
    if span > 0.0 {
        return binary32::clamp((along - a.along) / span);
    }
    0.0
}

fn point_along(a: Crumb, b: Crumb, along: f32) -> Point
    ensures { result ≡ point_along a b along }
{
    let t = share_along(a, b, along);
    plane::at_share(Point::from(a), Point::from(b), t).point
}

// The place `along` metres from the first crumb of a line, at or before segment `end`.
pub fn at_along(line: &Crumbs, end: usize, along: f32) -> Point
    requires { (1 ≤ end) × (end < length line.now) }
    ensures { result ≡ at_along line.now end along }
{
    let mut i = end - 1;
    // By `while`: `find` needs the test the other way round, with a `!` since a NaN stops here, and `unwrap_or(0)` behind it.
    while i > 0 && line.crumb(i).along > along {
        i -= 1;
    }
    point_along(line.crumb(i), line.crumb(i + 1), along)
}

// How many leading crumbs of the breadcrumb lie at most `limit` metres along.
pub fn ends(line: &Crumbs, limit: f32) -> usize
    ensures { result ≡ ends line.now limit }
{
    (0..line.len())
        .take_while(|n| line.crumb(*n).along <= limit)
        .count()
}
