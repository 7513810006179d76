// What a following that begins or ends changes in the groups of the state, each by itself.

ghost use Rattle.std.specs.Prelude.{◌≡◌};
ghost use Rattle.follow.specs.Record.{after_thinning};
ghost use Rattle.follow.specs.Parts.{ended_by_thinning, stopped, held_off, along_at, course_from, leads};

use crumbs::held::Crumbs;
use plane::Point;
use state::{Course, Follow, Line};

// ---- what is followed

// Nothing is followed.
pub const UNFOLLOWED: Follow = Follow {
    line: Line::Nothing,
    segment: 0,
    matched: None,
    off: false,
    reminded_ms: 0,
};

// A following of the breadcrumb is over, without a cut; one of the course goes on.
fn left(f: Follow) -> Follow
    ensures { result ≡ ended_by_thinning f.line f }
{
    match f.line {
        Line::Breadcrumb => Follow {
            reminded_ms: f.reminded_ms,
            ..UNFOLLOWED
        },
        Line::Nothing | Line::Course => f,
    }
}

// A following of the breadcrumb is over after a thinning.
pub fn after_thinning(thinned: bool, f: Follow) -> Follow
    ensures { result ≡ after_thinning thinned f }
{
    if thinned {
        return left(f);
    }
    f
}

pub fn stopped(f: Follow, matched: Option<Point>) -> Follow
    ensures { result ≡ stopped matched f }
{
    Follow {
        line: Line::Nothing,
        matched,
        off: false,
        ..f
    }
}

// ---- the course

// A course that is stopped is held off for the rest of the ride.
pub fn held_off(c: Course) -> Course
    ensures { result ≡ held_off c }
{
    let mut off = c;
    off.held = true;
    off
}

// Metres to the course's end at its place `end`, 0 where the course has none.
fn along_at(line: &Crumbs, end: usize) -> f32
    ensures { result ≡ along_at line.now end }
{
    if end < line.len() {
        return line.crumb(end).along;
    }
    0.0
}

pub fn course_from(c: Course, line: &Crumbs, end: usize) -> Course
    ensures { result ≡ course_from line.now end c }
{
    let along = along_at(line, end);
    Course {
        join_fixes: 0,
        along,
        reached: along,
        fix: None,
        ..c
    }
}

// ---- the breadcrumb

// Whether the breadcrumb leads anywhere.
pub fn leads(crumbs: &Crumbs) -> bool
    ensures { result ≡ leads crumbs.now }
{
    crumbs
        .length_m()
        .is_some_and(|length| !(length < trail::MIN_STEP_M))
}
