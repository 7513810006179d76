// The heading: which way the rider moves, and for how long that is known.
#![tactic(auto)]

ghost use Rattle.std.specs.Prelude.{◌≡◌};
ghost use Rattle.motion.specs.Heading.{elapsed, spot_or, renewed, aged, track_heading};

use plane::Point;

// The heading is the way from the fix this far back.
const HEADING_STEP_M: f32 = 15.0;

// A heading older than this (the rider stopped) is unknown.
const HEADING_STALE_MS: u64 = 15_000;

// From where the heading is taken, the heading, and when it was last renewed.
#[derive(Clone, Copy)]
pub struct Motion {
    pub from: Option<Point>,
    pub heading: Option<u16>,
    pub heading_ms: u64,
}

// now_ms - then_ms, stopping at 0.
pub fn elapsed(now_ms: u64, then_ms: u64) -> u64
    ensures { result ≡ elapsed now_ms then_ms }
{
    now_ms.saturating_sub(then_ms)
}

pub fn spot_or(s: Option<Point>, p: Point) -> Point
    ensures { result ≡ spot_or s p }
{
    s.unwrap_or(p)
}

fn renewed(from: Point, p: Point, now_ms: u64) -> Motion
    ensures { result ≡ renewed from p now_ms }
{
    Motion {
        from: Some(p),
        heading: Some(plane::bearing(from, p)),
        heading_ms: now_ms,
    }
}

fn aged(m: Motion, from: Point, now_ms: u64) -> Motion
    ensures { result ≡ aged m from now_ms }
{
    let kept = Motion {
        from: Some(from),
        ..m
    };
    if elapsed(now_ms, m.heading_ms) > HEADING_STALE_MS {
        Motion {
            heading: None,
            ..kept
        }
    } else {
        kept
    }
}

pub fn track_heading(m: Motion, p: Point, now_ms: u64) -> Motion
    ensures { result ≡ track_heading m p now_ms }
{
    let from = spot_or(m.from, p);
    if plane::distance(from, p) >= HEADING_STEP_M {
        renewed(from, p, now_ms)
    } else {
        aged(m, from, now_ms)
    }
}
