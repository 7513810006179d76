// The plane that the guide works in: metres east and north of the ride's first fix.
#![tactic(auto)]

pub mod squares;

ghost use Rattle.std.specs.Prelude.{◌≡◌, ◌-ℤ◌};
ghost use Rattle.plane.specs.Plane.{distance, at_share, project, off_segment, onward, bearing, metres};
ghost use Rattle.plane.specs.Fix.{east_per_e7, wrapped, frame};

// Metres per 1e-7 degree of latitude, on a sphere of the mean Earth radius.
pub const M_PER_E7: f32 = 0.011_119_508;

// Angles are in 4096ths of a turn, clockwise from north.
pub const TURN: u16 = 4096;

use std::f32::consts::{PI, TAU};

// A place: metres east and north of the origin.
#[derive(Clone, Copy)]
pub struct Point {
    pub east: f32,
    pub north: f32,
}

// A place on the globe: latitude and longitude in 1e-7 degree.
#[derive(Clone, Copy, PartialEq, Eq)]
pub struct Fix {
    pub lat: i32,
    pub lon: i32,
}

// A point of a segment, and how far along the segment it is, 0 to 1.
#[derive(Clone, Copy)]
pub struct Projection {
    pub point: Point,
    pub t: f32,
}

pub fn distance(a: Point, b: Point) -> f32
    ensures { result ≡ distance a b }
{
    binary32::sqrtf(squares::square(a, b))
}

// The point of segment a-b nearest p.
pub fn project(p: Point, a: Point, b: Point) -> Projection
    ensures { result ≡ project p a b }
{
    let dx = b.east - a.east;
    let dy = b.north - a.north;
    let length = dx * dx + dy * dy;
    if length > 0.0 {
        let t = binary32::clamp(((p.east - a.east) * dx + (p.north - a.north) * dy) / length);
        at_share(a, b, t)
    } else {
        at_share(a, b, 0.0)
    }
}

// The point at the share `t` of the way from `a` to `b`.
pub fn at_share(a: Point, b: Point, t: f32) -> Projection
    ensures { result ≡ at_share a b t }
{
    let point = Point {
        east: a.east + t * (b.east - a.east),
        north: a.north + t * (b.north - a.north),
    };
    Projection { point, t }
}

// How far p lies from the segment a-b.
pub fn off_segment(p: Point, a: Point, b: Point) -> f32
    ensures { result ≡ off_segment p a b }
{
    distance(p, project(p, a, b).point)
}

// The bearing from `from` to `to`, in 4096ths of a turn clockwise from north.
pub fn bearing(from: Point, to: Point) -> u16
    ensures { result ≡ bearing from to }
{
    let radians = trig::atan2f(to.east - from.east, to.north - from.north);
    (binary32::as_u32(onward(radians / TAU) * 4096.0) % u32::from(TURN)) as u16
}

// A part of a turn to the left as one to the right.
fn onward(turns: f32) -> f32
    ensures { result ≡ onward turns }
{
    if turns < 0.0 { turns + 1.0 } else { turns }
}

pub fn metres(value: f32) -> u32
    ensures { result ≡ metres value }
{
    binary32::as_u32(value + 0.5)
}

// Metres east per 1e-7 degree of longitude at this latitude.
pub fn east_per_e7(lat: i32) -> f32
    ensures { result ≡ east_per_e7 lat }
{
    let radians = std::num::nearest_i32_to_f32(lat) * 1e-7 * PI / 180.0;
    M_PER_E7 * trig::cosf(radians)
}

fn difference(a: i32, b: i32) -> i64
    ensures { result ≡ a -ℤ b }
{
    i64::from(a) - i64::from(b)
}

// Across the antimeridian the short way round is the way ridden.
fn wrapped(d: i64) -> i64
    ensures { result ≡ wrapped d }
{
    if d > 1_800_000_000 {
        d - 3_600_000_000
    } else if d < -1_800_000_000 {
        d + 3_600_000_000
    } else {
        d
    }
}

// Metres east and north of the origin.
pub fn frame(origin: Fix, east_per_e7: f32, fix: Fix) -> Point
    ensures { result ≡ frame origin east_per_e7 fix }
{
    Point {
        east: binary32::as_f32(wrapped(difference(fix.lon, origin.lon))) * east_per_e7,
        north: binary32::as_f32(difference(fix.lat, origin.lat)) * M_PER_E7,
    }
}
