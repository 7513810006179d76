// What a match on the followed line says: on it or off it, whether it is reminded of, and where the next is looked for.
// `distances` says how far is off and how far is on, `followed` what is followed and where it is matched.
#![tactic(auto)]

pub mod distances;
pub mod followed;

ghost use Rattle.std.specs.Prelude.{◌≡◌, ◌||◌, cond, ◌+◌, ◌-◌, ◌<◌, min, max};
ghost use Rattle.std.specs.Float.Ieee.{lt};
ghost use Rattle.state.specs.declared.Event.TheVariants as event;
ghost use Rattle.matching.specs.Distances.{off_m};
ghost use Rattle.matching.specs.Match.{on_course, on_line, search_back, search_ahead, nearer, off_now, minimum, off_event, due};
ghost use Rattle.matching.specs.Match.{reminded_at, follow_matched, course_matched};

use plane::Point;
use segments::costs::Nearest;
use state::{Course, Event, Follow, Line};

// Segments behind and ahead of the last match searched first.
const SEARCH_BACK: usize = 64;

const SEARCH_AHEAD: usize = 4;

// While off the breadcrumb the nudge repeats this often.
const REMIND_MS: u64 = 60_000;

// ---- which line

pub fn on_course(line: Line) -> bool
    ensures { result ≡ on_course line }
{
    line == Line::Course
}

pub fn on_line(line: Line) -> bool
    ensures { result ≡ on_line line }
{
    line != Line::Nothing
}

// ---- the match

// Off sets above `distances::OFF_M`, and clears within `distances::ON_M`.
pub fn off_now(was: bool, off: f32) -> bool
    ensures { result ≡ off_now was off }
{
    if was {
        return off > distances::ON_M;
    }
    off > distances::OFF_M
}

// The smaller of two, and the first of equals; of a number and a NaN the number. `f32::min` leaves open which of two equal zeros it gives.
fn smaller(a: f32, b: f32) -> f32
    ensures { result ≡ minimum a b }
{
    if a <= b {
        return a;
    }
    if b == b {
        return b;
    }
    a
}

fn still_off(due: bool) -> Event
    ensures { result ≡ cond due event.OffTrack event.Nothing }
{
    if due {
        return Event::OffTrack;
    }
    Event::Nothing
}

// What leaving the line, coming back to it, or staying off it tells.
pub fn off_event(was: bool, is: bool, due: bool) -> Event
    ensures { result ≡ off_event was is due }
{
    if was {
        if is {
            return still_off(due);
        }
        return Event::OnTrack;
    }
    if is {
        return Event::OffTrack;
    }
    Event::Nothing
}

// Whether a reminder is due: only on the breadcrumb.
pub fn due(f: Follow, now_ms: u64) -> bool
    ensures { result ≡ due f now_ms }
{
    if on_course(f.line) {
        return false;
    }
    motion::elapsed(now_ms, f.reminded_ms) >= REMIND_MS
}

// Off since now, or reminded now. Each event is named, so that one more has to be thought of here.
fn reminded_at(e: Event, now_ms: u64, was_ms: u64) -> u64
    ensures { result ≡ reminded_at e now_ms was_ms }
{
    match e {
        Event::OffTrack => now_ms,
        Event::Nothing
        | Event::Following
        | Event::OnTrack
        | Event::Dropped
        | Event::Arrived
        | Event::CourseEnd => was_ms,
    }
}

pub fn follow_matched(near: Nearest, off: bool, e: Event, now_ms: u64, f: Follow) -> Follow
    ensures { result ≡ follow_matched near off e now_ms f }
{
    let reminded_ms = reminded_at(e, now_ms, f.reminded_ms);
    Follow {
        segment: near.end,
        matched: Some(near.point),
        off,
        reminded_ms,
        ..f
    }
}

pub fn course_matched(near: Nearest, p: Point, c: Course) -> Course
    ensures { result ≡ course_matched near p c }
{
    Course {
        along: near.along,
        reached: smaller(c.reached, near.along),
        fix: Some(p),
        ..c
    }
}

// The lowest of the segments behind the last match that are searched.
pub fn search_from(segment: usize) -> usize
    ensures { result ≡ max (segment - search_back) 1 }
{
    segment.saturating_sub(SEARCH_BACK).max(1)
}

// The highest of those ahead.
pub fn search_to(segment: usize, len: usize) -> usize
    requires { segment < len }
    ensures { result ≡ min (segment + search_ahead) (len - 1) }
{
    segment.saturating_add(SEARCH_AHEAD).min(len - 1)
}

// A match elsewhere on the line, if it is nearer.
pub fn nearer(near: Nearest, best: Option<Nearest>) -> Nearest
    ensures { result ≡ nearer near best }
{
    best.filter(|anywhere| anywhere.off < near.off)
        .unwrap_or(near)
}

// Off the line, or about to be.
pub fn lost(was: bool, off: f32) -> bool
    ensures { result ≡ (was || lt off_m off) }
{
    was || distances::OFF_M < off
}
