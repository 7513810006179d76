// What the guide asks of `f32` under names of its own: the square root, casts that lose something, and Rust's `clamp`
// and `max` at the ends that the guide uses. Each function takes every value.
#![tactic(auto)]

ghost use Rattle.std.specs.Prelude.{◌≡◌, to_bits};
ghost use Rattle.std.specs.Float.{binary32};
ghost use Rattle.binary32.specs.Root.{root};
ghost use Rattle.binary32.specs.Casts.{as_u32};
ghost use Rattle.binary32.specs.Inner.{as_f32};
ghost use Rattle.binary32.specs.Limits.{clamp, max_zero};

// The square root of x, rounded to the nearest `f32`, a tie to the even one. A zero is its own root,
// and what is below zero has none: a NaN.
pub fn sqrtf(x: f32) -> f32
    ensures { result ≡ root binary32 x }
{
    x.sqrt()
}

// Rust's `x as u32`.
pub fn as_u32(x: f32) -> u32
    ensures { result ≡ as_u32 x }
{
    std::num::saturating_f32_to_u32(x)
}

// The bit pattern of x; of the many that a NaN may have, 7FC00000.
pub fn pattern(x: f32) -> u32
    ensures { result ≡ to_bits binary32 x }
{
    if x.is_nan() { 0x7fc0_0000 } else { x.to_bits() }
}

// The `f32` nearest to a difference of two `i32`. A number further from 0 counts as 2^32 - 1 in size.
pub fn as_f32(d: i64) -> f32
    ensures { result ≡ as_f32 d }
{
    let size = std::num::nearest_u32_to_f32(d.unsigned_abs().min(0xffff_ffff) as u32);
    if d < 0 { -size } else { size }
}

// Rust's `x.clamp(0.0, 1.0)`.
pub fn clamp(x: f32) -> f32
    ensures { result ≡ clamp x }
{
    x.clamp(0.0, 1.0)
}

// Rust's `x.max(0.0)`, and +0 at -0: there `f32::max` leaves the sign open, so the test is written out.
pub fn max_zero(x: f32) -> f32
    ensures { result ≡ max_zero x }
{
    if x > 0.0 { x } else { 0.0 }
}
