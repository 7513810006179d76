// Following begins and ends, and what is recorded meanwhile. The state and the crumb buffer go side by side, here and in the crates above,
// as C lends them: in one struct each clause would take them apart, to say what becomes of either.
#![tactic(auto)]

pub mod follow_parts;

ghost use Rattle.std.specs.Prelude.{◌≡◌, ◌≤◌, length};
ghost use Rattle.crumbs.specs.Crumb.{capacity};
ghost use Rattle.trail.specs.View as trail;
ghost use Rattle.state.specs.declared.Line.TheVariants as line;
ghost use Rattle.follow.specs.Record.{keep_in, add_in, flush_in};
ghost use Rattle.follow.specs.Engage.{engage_at, engage, leave_at, stop_nothing, stop_course, stop_breadcrumb, stop};
ghost use Rattle.follow.specs.View.{Changes, Follows, Asks};

use crumbs::held::Crumbs;
use plane::Point;
use state::{Follow, Homing, Line};

// ---- the breadcrumb

// Three bodies: each hands the trail other things, and a closure for that one line would be no shorter.
pub fn keep(h: &mut Homing, crumbs: &mut [f32], p: Point)
    requires { trail.TrailFit h.old.trail (length crumbs.old) }
    ensures follows { Follows (λ C. keep_in C p) h.old crumbs.old h.new crumbs.new }
    ensures window { h.new.window ≡ h.old.window }
{
    let thinned = h.trail.keep(crumbs, p);
    h.follow = follow_parts::after_thinning(thinned, h.follow);
}

pub fn add(h: &mut Homing, crumbs: &mut [f32], p: Point)
    requires { trail.TrailFit h.old.trail (length crumbs.old) }
    ensures { Follows (λ C. add_in C p) h.old crumbs.old h.new crumbs.new }
{
    let thinned = h.trail.add(&mut h.window, crumbs, p);
    h.follow = follow_parts::after_thinning(thinned, h.follow);
}

pub fn flush(h: &mut Homing, crumbs: &mut [f32])
    requires { trail.TrailFit h.old.trail (length crumbs.old) }
    ensures follows { Follows flush_in h.old crumbs.old h.new crumbs.new }
    ensures window { h.new.window ≡ h.old.window }
{
    let thinned = h.trail.flush(&h.window, crumbs);
    h.follow = follow_parts::after_thinning(thinned, h.follow);
}

// ---- following begins

// Follow a line from its segment `end`.
pub fn engage_at(h: &mut Homing, course: &Crumbs, on: Line, end: usize, now_ms: u64)
    ensures { Changes (engage_at course.now on end now_ms) h.old h.new }
{
    h.follow = Follow {
        line: on,
        segment: end,
        matched: None,
        off: false,
        reminded_ms: now_ms,
    };
    h.course = follow_parts::course_from(h.course, course, end);
}

// Follow the breadcrumb from its last segment, if it leads anywhere.
pub fn engage(h: &mut Homing, crumbs: &[f32], course: &Crumbs, now_ms: u64) -> bool
    requires { h.old.trail.len ≤ capacity (length crumbs.now) }
    ensures { Asks (engage course.now now_ms) h.old crumbs.now h.new result }
{
    let len = h.trail.len;
    if follow_parts::leads(&Crumbs::new(crumbs, len)) {
        engage_at(h, course, Line::Breadcrumb, len - 1, now_ms);
        return true;
    }
    false
}

// ---- following ends

// A following of the course ends, and holds the course off.
pub fn stop_course(h: &mut Homing)
    ensures { Changes stop_course h.old h.new }
{
    h.follow = follow_parts::stopped(h.follow, None);
    h.course = follow_parts::held_off(h.course);
}

fn stop_nothing(h: &mut Homing)
    ensures { Changes stop_nothing h.old h.new }
{
    h.follow = follow_parts::stopped(h.follow, h.follow.matched);
}

// The breadcrumb ends where the rider left it.
fn leave_at(h: &mut Homing, crumbs: &mut [f32], matched: Option<Point>, segment: usize)
    requires { (trail.TrailFit h.old.trail (length crumbs.old)) × (segment ≤ h.old.trail.len) }
    ensures follows { Follows (λ C. leave_at C matched segment) h.old crumbs.old h.new crumbs.new }
    ensures window { h.new.window ≡ h.old.window }
{
    if let Some(p) = matched {
        h.trail.len = segment;
        keep(h, crumbs, p);
    }
}

fn stop_breadcrumb(h: &mut Homing, crumbs: &mut [f32])
    requires { (trail.TrailFit h.old.trail (length crumbs.old)) × (h.old.follow.segment ≤ h.old.trail.len) }
    ensures follows { Follows stop_breadcrumb h.old crumbs.old h.new crumbs.new }
    ensures window { h.new.window ≡ h.old.window }
{
    let f = h.follow;
    h.follow = follow_parts::stopped(f, None);
    h.trail.window_len = 0;
    h.trail.retrace = 0;
    leave_at(h, crumbs, f.matched, f.segment);
}

// Recording resumes: the breadcrumb keeps the way home from where the rider left it, and goes on from
// there. A course stopped is held off for the rest of the ride.
pub fn stop_following(h: &mut Homing, crumbs: &mut [f32])
    requires { (trail.TrailFit h.old.trail (length crumbs.old))
        × (h.old.follow.line ≡ line.Breadcrumb → h.old.follow.segment ≤ h.old.trail.len) }
    ensures follows { Follows stop h.old crumbs.old h.new crumbs.new }
    ensures window { h.new.window ≡ h.old.window }
{
    match h.follow.line {
        Line::Nothing => stop_nothing(h),
        Line::Course => stop_course(h),
        Line::Breadcrumb => stop_breadcrumb(h, crumbs),
    }
}
