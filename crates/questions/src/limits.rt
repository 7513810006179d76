// What question 10 asks of a number, a place, a crumb and a guide.

ghost use Rattle.std.specs.Prelude.{◌≡◌};
ghost use Rattle.std.specs.Float.Ieee.{le};
ghost use Rattle.refusal.specs.Refusal.{asked};
ghost use Rattle.binary32.specs.Limits.{plus_zero};
ghost use Rattle.calls.specs.Questions.{sized, place_fits, along_fits, factor_fits, heading_fits, guide_fits, shown_fits, spot_fits};
ghost use Rattle.calls.specs.Questions.{crumb_fits};
ghost use Rattle.calls.specs.Questions.{asks_guide};
ghost use Rattle.questions.specs.Sure.{least_sure, most_sure};

use crumbs::Crumb;
use plane::Point;
use refusal::Refusal;
use state::Guide;

// A place is at most this far from the origin, east or west, north or south.
const PLACE_MOST_M: f32 = 100000000.0;

// An along is below this, the `f32` nearest to 10^16, which lies above it.
const ALONG_END_M: f32 = 1e16;

// An along up to this is surely below that.
const ALONG_SURE_M: f32 = 1e15;

// The east factor is at most this in size.
const FACTOR_MOST: f32 = 0.02;

// ---- numbers: by two comparisons, since with `f32::abs` a crumb takes half as long again

fn sized(x: f32) -> bool
    ensures { result ≡ sized x }
{
    (-PLACE_MOST_M <= x) & (x <= PLACE_MOST_M)
}

pub fn along_fits(x: f32) -> bool
    ensures { result ≡ along_fits x }
{
    (0.0 <= x) & (x < ALONG_END_M)
}

pub fn factor_fits(x: f32) -> bool
    ensures { result ≡ factor_fits x }
{
    (-FACTOR_MOST <= x) & (x <= FACTOR_MOST)
}

// Whether the tolerance is 0 or more.
pub fn tolerance_fits(x: f32) -> bool
    ensures { result ≡ le plus_zero x }
{
    0.0 <= x
}

pub fn heading_fits(heading: Option<u16>) -> bool
    ensures { result ≡ heading_fits heading }
{
    heading.is_none_or(|known| known < plane::TURN)
}

// ---- a place, a crumb

pub fn place_fits(p: Point) -> bool
    ensures { result ≡ place_fits p }
{
    sized(p.east) & sized(p.north)
}

pub fn spot_fits(spot: Option<Point>) -> bool
    ensures { result ≡ spot_fits spot }
{
    spot.is_none_or(place_fits)
}

pub fn crumb_fits(c: Crumb) -> bool
    ensures { result ≡ crumb_fits c }
{
    place_fits(Point::from(c)) & along_fits(c.along)
}

// ---- two crumbs: one that has no number below that of the least, or above that of the most, surely fits

pub fn least() -> Crumb
    ensures { result ≡ least_sure }
{
    Crumb {
        east: -PLACE_MOST_M,
        north: -PLACE_MOST_M,
        along: 0.0,
    }
}

pub fn most() -> Crumb
    ensures { result ≡ most_sure }
{
    Crumb {
        east: PLACE_MOST_M,
        north: PLACE_MOST_M,
        along: ALONG_SURE_M,
    }
}

// ---- a guide

fn guide_fits(g: Guide) -> bool
    ensures { result ≡ guide_fits g }
{
    (g.bearing < plane::TURN) & heading_fits(g.heading)
}

pub fn shown_fits(shown: Option<Guide>) -> bool
    ensures { result ≡ shown_fits shown }
{
    shown.is_none_or(guide_fits)
}

// A guide's own bearing and heading.
#[tactic(auto, unfolding(calls::specs::Questions::asks_guide))]
pub fn asks_guide(g: Guide) -> Result<(), Refusal>
    ensures { asked result ≡ asks_guide g }
{
    Refusal::State.unless(guide_fits(g))
}
