// The cosine and the angle of a direction, by the formulas of document 01, "Fix": each operation
// rounds once, in the order written. Every input has its answer, a NaN and the infinities too.
#![tactic(auto)]

ghost use Rattle.std.specs.Prelude.{◌≡◌};
ghost use Rattle.binary32.specs.Limits.{size_of};
ghost use Rattle.trig.specs.Fix.{near_cos, far_cos, cos};
ghost use Rattle.trig.specs.Fix.{quotient, base, reduced, series, arc};
ghost use Rattle.trig.specs.Fix.{eastward, southward, westward, direction, angle};

use std::f32::consts::{FRAC_PI_2, FRAC_PI_4, PI};

// The tangent of π/8.
const TAN_PI_8: f32 = 0.41421356;

// The absolute value: `0.0 - x` is +0 at either zero, and of equals it is the one taken. With `f32::abs` a direction's angle takes half as
// long again.
fn fabsf(x: f32) -> f32
    ensures { result ≡ size_of x }
{
    let minus = 0.0 - x;
    if x > minus { x } else { minus }
}

// The cosine of an r that is at most π/4 in size.
fn near_cos(r: f32) -> f32
    ensures { result ≡ near_cos r }
{
    let z = r * r;
    let u = ((2.443315711809948e-5 * z - 1.388731625493765e-3) * z + 4.166664568298827e-2) * z * z;
    u - 0.5 * z + 1.0
}

// The cosine of π/2 - b.
fn far_cos(b: f32) -> f32
    ensures { result ≡ far_cos b }
{
    let z = b * b;
    ((-1.9515295891e-4 * z + 8.3321608736e-3) * z - 1.6666654611e-1) * z * b + b
}

// The cosine of r.
pub fn cosf(r: f32) -> f32
    ensures { result ≡ cos r }
{
    let a = fabsf(r);
    if a <= FRAC_PI_4 {
        near_cos(r)
    } else {
        far_cos(FRAC_PI_2 - a)
    }
}

// The smaller of two sizes over the larger; a NaN where one is, so `f32::min`, which leaves it out, does not serve.
fn quotient(a: f32, b: f32) -> f32
    ensures { result ≡ quotient a b }
{
    let (smaller, larger) = if a > b { (b, a) } else { (a, b) };
    smaller / larger
}

// The angle whose tangent is q, for a q from 0 to 1. Past π/8 it is π/4 plus the angle whose
// tangent is (q - 1) / (q + 1), so that the series is taken near 0.
fn arc(q: f32) -> f32
    ensures { result ≡ arc q }
{
    base(q) + series(reduced(q))
}

fn base(q: f32) -> f32
    ensures { result ≡ base q }
{
    if q > TAN_PI_8 { FRAC_PI_4 } else { 0.0 }
}

fn reduced(q: f32) -> f32
    ensures { result ≡ reduced q }
{
    if q > TAN_PI_8 {
        (q - 1.0) / (q + 1.0)
    } else {
        q
    }
}

fn series(w: f32) -> f32
    ensures { result ≡ series w }
{
    let z = w * w;
    (((8.05374449538e-2 * z - 1.38776856032e-1) * z + 1.99777106478e-1) * z - 3.33329491539e-1)
        * z
        * w
        + w
}

// From the angle off the nearest of the four points of the compass to the angle off north or south.
fn eastward(e: f32, n: f32, g: f32) -> f32
    ensures { result ≡ eastward e n g }
{
    if e > n { FRAC_PI_2 - g } else { g }
}

// From there to the angle off north.
fn southward(north: f32, g: f32) -> f32
    ensures { result ≡ southward north g }
{
    if north < 0.0 { PI - g } else { g }
}

// An angle to the west is negative.
fn westward(east: f32, g: f32) -> f32
    ensures { result ≡ westward east g }
{
    if east < 0.0 { -g } else { g }
}

fn direction(east: f32, north: f32) -> f32
    ensures { result ≡ direction east north }
{
    let e = fabsf(east);
    let n = fabsf(north);
    let g = eastward(e, n, arc(quotient(e, n)));
    westward(east, southward(north, g))
}

// The angle of (east, north), clockwise from north, from -π to π.
pub fn atan2f(east: f32, north: f32) -> f32
    ensures { result ≡ angle east north }
{
    if east == 0.0 && north == 0.0 {
        0.0
    } else {
        direction(east, north)
    }
}
