// Whether a place strays from a segment, mostly told without a root.

ghost use Rattle.std.specs.Prelude.{◌≡◌, not};
ghost use Rattle.std.specs.Float.Ieee.{le};
ghost use Rattle.plane.specs.Plane.{off_segment};
ghost use Rattle.thin.specs.Bounds.{Under, Over};

use plane::{Point, squares};

// A tolerance, and bounds on squares for it, found once a pass: the root of `lo` is at most the tolerance, that of `hi` is above
// it. One that is missing is a NaN, to which no comparison says yes.
#[derive(Clone, Copy)]
pub(crate) struct Bounds {
    pub(crate) tolerance: f32,
    pub(crate) lo: f32,
    pub(crate) hi: f32,
    ghost under: { Under tolerance lo },
    ghost over: { Over tolerance hi },
}

fn under(x: f32, tolerance: f32) -> f32
    ensures { Under tolerance result }
{
    if binary32::sqrtf(x) <= tolerance {
        return x;
    }
    f32::NAN
}

fn over(x: f32, tolerance: f32) -> f32
    ensures { Over tolerance result }
{
    if binary32::sqrtf(x) > tolerance {
        return x;
    }
    f32::NAN
}

impl Bounds {
    pub(crate) fn new(tolerance: f32) -> Bounds
        ensures { result.tolerance ≡ tolerance }
    {
        let middle = tolerance * tolerance;
        let lo = under(middle * 0.999999, tolerance);
        let hi = over(middle * 1.000001, tolerance);
        Bounds { tolerance, lo, hi }
    }

    // Whether `p` strays from the segment a-b; a NaN does. A root is taken only where the bounds do not say.
    pub(crate) fn strays(self, p: Point, a: Point, b: Point) -> bool
        ensures { result ≡ not (le (off_segment p a b) self.tolerance) }
    {
        let s = squares::off_square(p, a, b);
        if s <= self.lo {
            return false;
        }
        if self.hi <= s {
            return true;
        }
        !(binary32::sqrtf(s) <= self.tolerance)
    }
}
