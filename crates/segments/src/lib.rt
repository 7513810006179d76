// Segments of a line, the breadcrumb or a course: where a position meets one, and whether it is better than the best so far. A segment is
// named by its far end: it runs from the crumb before to the one at `end`. What asks of one segment is given these two crumbs, a and b, as
// its rule is: a struct of them would be made for each question, and taken apart in it.
// `costs` says what a match costs by each ranking, `turns` which way a line runs.
#![tactic(auto)]

pub mod costs;
pub mod turns;

ghost use Rattle.std.specs.Prelude.{◌≡◌, ℕ, ◌-◌, ◌≤◌, ◌<◌, length, List, true, false, ◌||◌, Option, Float};
ghost use Rattle.std.specs.Float.Ieee.{lt};
ghost use Rattle.plane.specs.Square.{off_square};
ghost use Rattle.crumbs.specs.declared.Crumb.{Crumb};
ghost use Rattle.crumbs.specs.Crumb.{point};
ghost use Rattle.crumbs.specs.Line.{at};
ghost use Rattle.segments.specs.Segment.{meets, nearest_on, cheaper, cost_within, considered, found};
ghost use Rattle.segments.specs.Cost.{cost_of};
ghost use Rattle.segments.specs.Square.{square_on};

use costs::{Nearest, Ranking};
use crumbs::Crumb;
use crumbs::held::Crumbs;
use plane::{Point, squares};

// A part of a line, from `floor` to `ceiling` metres along.
#[derive(Clone, Copy)]
pub struct Stretch {
    pub floor: f32,
    pub ceiling: f32,
}

impl Stretch {
    // Whether the segment from `a` to `b` ends before the stretch or begins past it.
    fn misses(self, a: Crumb, b: Crumb) -> bool
        ensures { result ≡ (lt b.along self.floor || lt self.ceiling a.along) }
    {
        b.along < self.floor || a.along > self.ceiling
    }
}

// Where `p` meets segment `end` of a line.
pub fn nearest_on(line: &Crumbs, p: Point, end: usize) -> Nearest
    requires { (1 ≤ end) × (end < length line.now) }
    ensures { result ≡ nearest_on line.now p end }
{
    meets(line.crumb(end - 1), line.crumb(end), p, end)
}

// The square of how far `p` is off segment `end` of a line.
pub fn square_on(line: &Crumbs, p: Point, end: usize) -> f32
    requires { (1 ≤ end) × (end < length line.now) }
    ensures { result ≡ square_on line.now p end }
{
    square(line.crumb(end - 1), line.crumb(end), p)
}

// The square of how far `p` is off the segment from `a` to `b`.
pub fn square(a: Crumb, b: Crumb, p: Point) -> f32
    ensures { result ≡ off_square p (point a) (point b) }
{
    squares::off_square(p, Point::from(a), Point::from(b))
}

// Whether a ranking certainly has no cost for the segment from `a` to `b`: it lies further off than `costs::SEARCH_M`. No root
// is taken.
fn too_far(by: Ranking, p: Point, a: Crumb, b: Crumb) -> bool
    ensures { result ≡ true → (end : ℕ) → cost_of by (meets a b p end) a b ≡ None }
{
    let square = square(a, b, p);
    match by {
        Ranking::Plain => false,
        Ranking::On { .. } | Ranking::Ahead { .. } => !(square < costs::FAR),
    }
}

// Whether the segment from `a` to `b` may have a cost: where it certainly has none it need not be considered.
pub fn may_cost(a: Crumb, b: Crumb, p: Point, within: Stretch, by: Ranking) -> bool
    ensures { result ≡ false → (line : List Crumb) (end : ℕ) (best : Option (Nearest × Float)) → a ≡ at line (end - 1) → b ≡ at line end
        → best ≡ considered line p (cost_within line p within by) end best }
{
    !within.misses(a, b) && !too_far(by, p, a, b)
}

// Where `p` meets the segment from `a` to `b`, whose far end is `end`.
fn meets(a: Crumb, b: Crumb, p: Point, end: usize) -> Nearest
    ensures { result ≡ meets a b p end }
{
    let projection = plane::project(p, Point::from(a), Point::from(b));
    let point = projection.point;
    Nearest {
        end,
        off: plane::distance(p, point),
        point,
        along: a.along + projection.t * (b.along - a.along),
    }
}

// The best so far, or `near` where that costs less.
pub fn cheaper(
    best: Option<(Nearest, f32)>,
    near: Nearest,
    cost: Option<f32>,
) -> Option<(Nearest, f32)>
    ensures { result ≡ cheaper best near cost }
{
    let Some(metres) = cost else {
        return best;
    };
    let Some((_, least)) = best else {
        return Some((near, metres));
    };
    if metres < least {
        return Some((near, metres));
    }
    best
}

// The best so far, or the segment from `a` to `b`, whose far end is `end`, where it reaches into the stretch and costs less. Here and above
// two crumbs go by value without their line, for what is promised holds on every line that has them there.
pub fn consider(
    a: Crumb,
    b: Crumb,
    p: Point,
    within: Stretch,
    by: Ranking,
    end: usize,
    best: Option<(Nearest, f32)>,
) -> Option<(Nearest, f32)>
    ensures { (line : List Crumb) → a ≡ at line (end - 1) → b ≡ at line end
        → result ≡ considered line p (cost_within line p within by) end best }
{
    if within.misses(a, b) {
        return best;
    }
    let near = meets(a, b, p, end);
    cheaper(best, near, costs::cost_of(by, near, a, b))
}

pub fn found(best: Option<(Nearest, f32)>) -> Option<Nearest>
    ensures { result ≡ found best }
{
    best.map(|(near, _)| near)
}
