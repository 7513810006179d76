// Fixes and courses placed in the ride's frame.
#![tactic(auto)]

ghost use Rattle.std.specs.Prelude.{◌≡◌, ◌≤◌, length};
ghost use Rattle.crumbs.specs.Crumb.{capacity};
ghost use Rattle.course.specs.Fix.{located, framed};
ghost use Rattle.course.specs.Course.{fixes, no_origin, placed, line_of, waits};
ghost use Rattle.course.specs.View.{Places};

use crumbs::Crumb;
use crumbs::held::Crumbs;
use plane::{Fix, Point};
use state::Frame;

// The most points a course has.
pub const POINTS: usize = 2048;
// The fewest points that make a line.
const FEWEST: usize = 2;

// The frame after a fix: the first one is the origin, and gives the east factor.
pub fn located(f: Frame, fix: Fix) -> Frame
    ensures { result ≡ located fix f }
{
    if f.origin.is_some() {
        return f;
    }
    Frame {
        origin: Some(fix),
        east_per_e7: plane::east_per_e7(fix.lat),
    }
}

// The place of a fix. Without an origin the fix itself is where places are counted from.
pub fn framed(f: Frame, fix: Fix) -> Point
    ensures { result ≡ framed f fix }
{
    plane::frame(f.origin.unwrap_or(fix), f.east_per_e7, fix)
}

// Whether the ride has no first fix yet.
fn no_origin(f: Frame) -> bool
    ensures { result ≡ no_origin f.origin }
{
    f.origin.is_none()
}

// How many points a course has: those with both a latitude and a longitude. The C interface lends two slices, and there is no memory to
// join them in; both in one struct would be taken apart at each point again.
pub fn count(lats: &[i32], lons: &[i32]) -> usize
    ensures { result ≡ length (fixes lats.now lons.now) }
{
    lats.len().min(lons.len())
}

// Whether a course waits for the ride's first fix to be placed.
pub fn waits(f: Frame, lats: &[i32], lons: &[i32]) -> bool
    ensures { result ≡ waits f (fixes lats.now lons.now) }
{
    count(lats, lons) >= FEWEST && no_origin(f)
}

// Place the points last first, each behind the one before it, and say how many they are.
// The loop counts: with `(0..n).rev().enumerate()` the proof that each place is in both slices didn't close.
fn place_all(f: Frame, lats: &[i32], lons: &[i32], line: &mut [f32]) -> usize
    requires { length (fixes lats.now lons.now) ≤ capacity (length line.old) }
    ensures { Places (placed f (fixes lats.now lons.now)) line.old result line.new }
{
    let n = count(lats, lons);
    for k in 0..n {
        let at = n - 1 - k;
        let fix = Fix {
            lat: lats[at],
            lon: lons[at],
        };
        let p = framed(f, fix);
        let c = Crumb {
            east: p.east,
            north: p.north,
            along: Crumbs::new(line, k).recorded_m(p),
        };
        crumbs::put(line, k, c);
    }
    n
}

// Place a course in the line's buffer, the finish first, and say how many crumbs the line has. Of
// fewer than two points, or before the ride's first fix, none is placed.
pub fn place(f: Frame, lats: &[i32], lons: &[i32], line: &mut [f32]) -> usize
    requires { length (fixes lats.now lons.now) ≤ capacity (length line.old) }
    ensures { Places (line_of f (fixes lats.now lons.now)) line.old result line.new }
{
    if count(lats, lons) < FEWEST {
        return 0;
    }
    if no_origin(f) {
        return 0;
    }
    place_all(f, lats, lons, line)
}
