// What it costs to match a position to a segment of a line, by each ranking.

ghost use Rattle.std.specs.Prelude.{◌≡◌};
ghost use Rattle.segments.specs.Cost.{plain, contrary, on, ahead, cost_of};

use crate::turns;
use crumbs::Crumb;
use plane::Point;

// Where the rider is matched first, a segment further off than this is not searched.
pub const SEARCH_M: f32 = 25.0;

// A square whose root is above 25 m.
pub const FAR: f32 = 626.0;

// A place more than this behind the furthest the rider has been counts as that much farther off.
pub const SLIP_M: f32 = 10.0;

// A segment against the rider's way counts as this much farther off.
pub const AGAINST_M: f32 = 5.0;

// Where a position meets a segment.
#[derive(Clone, Copy)]
pub struct Nearest {
    pub end: usize,
    pub off: f32,
    pub point: Point,
    // Metres along the line from its first crumb to `point`.
    pub along: f32,
}

// By which cost segments are ranked. The rules choose by it too, so it is an enum and no closure.
#[derive(Clone, Copy)]
pub enum Ranking {
    Plain,
    On { reached: f32, heading: Option<u16> },
    Ahead { heading: Option<u16> },
}

// How far off the segment is.
pub fn plain(near: Nearest) -> Option<f32>
    ensures { result ≡ plain near }
{
    Some(near.off)
}

// What a segment against the rider's way adds.
fn contrary(heading: Option<u16>, a: Crumb, b: Crumb) -> f32
    ensures { result ≡ contrary heading a b }
{
    if turns::against(heading, a, b) {
        return AGAINST_M;
    }
    0.0
}

// Within `SEARCH_M`: how far off, how far behind the furthest reached, and whether against the way.
fn on(reached: f32, heading: Option<u16>, near: Nearest, a: Crumb, b: Crumb) -> Option<f32>
    ensures { result ≡ on reached heading near a b }
{
    if near.off <= SEARCH_M {
        let back = binary32::max_zero(near.along - reached - SLIP_M);
        return Some(near.off + back + contrary(heading, a, b));
    }
    None
}

// Within `SEARCH_M` and not against the way: how far off.
fn ahead(heading: Option<u16>, near: Nearest, a: Crumb, b: Crumb) -> Option<f32>
    ensures { result ≡ ahead heading near a b }
{
    if near.off <= SEARCH_M {
        if turns::against(heading, a, b) {
            return None;
        }
        return plain(near);
    }
    None
}

// What the segment from `a` to `b` costs by a ranking.
pub fn cost_of(by: Ranking, near: Nearest, a: Crumb, b: Crumb) -> Option<f32>
    ensures { result ≡ cost_of by near a b }
{
    match by {
        Ranking::Plain => plain(near),
        Ranking::On { reached, heading } => on(reached, heading, near, a, b),
        Ranking::Ahead { heading } => ahead(heading, near, a, b),
    }
}
