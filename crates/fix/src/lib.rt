// What a fix does once the questions are answered. Here: one that is missing, and one from before a restart.
// `observe` has one that is there, `new_fix` what it does if it is new, `recording` how the breadcrumb grows by it.
#![tactic(auto)]

mod new_fix;
pub mod observe;
mod recording;

ghost use Rattle.std.specs.Prelude.{◌≡◌, ◌&&◌, ltb, length};
ghost use Rattle.trail.specs.View as trail;
ghost use Rattle.follow.specs.View.{Changes, Follows};
ghost use Rattle.motion.specs.Heading.{elapsed};
ghost use Rattle.std.specs.Option.{is_some};
ghost use Rattle.calls.specs.Fix.{fix_lost_ms, cleared, missing, replay, end_replay};
ghost use Rattle.fix.specs.Pass.{passing};

use lap::Lap;
use plane::{Fix, Point};
use state::Homing;

// A fix missing for longer than this leaves the guide without a position.
const FIX_LOST_MS: u64 = 5_000;

// ---- a missing fix

fn cleared(h: &mut Homing)
    ensures { Changes cleared h.old h.new }
{
    h.here = None;
    h.fed = None;
    h.guide = None;
    h.course.fix = None;
}

fn lost(h: &Homing, now_ms: u64) -> bool
    ensures { result ≡ (is_some h.now.here && ltb fix_lost_ms (elapsed now_ms h.now.here_ms)) }
{
    h.here.is_some() && FIX_LOST_MS < motion::elapsed(now_ms, h.here_ms)
}

pub fn missing(h: &mut Homing, now_ms: u64)
    ensures { Changes (λ s. (missing now_ms s).state) h.old h.new }
{
    if lost(h, now_ms) {
        cleared(h);
    }
}

// ---- a fix from before a restart

// The start pass is moved on, but no lap is taken.
fn passing(l: Lap, p: Point, heading: Option<u16>) -> Lap
    ensures { result ≡ passing p heading l }
{
    let mut next = lap::step_pass(l, p, heading);
    next.passed = l.passed;
    next
}

pub fn replay(h: &mut Homing, crumbs: &mut [f32], fix: Fix, now_ms: u64)
    requires { trail.TrailFit h.old.trail (length crumbs.old) }
    ensures { Follows (λ C. replay C fix now_ms) h.old crumbs.old h.new crumbs.new }
{
    h.frame = course::located(h.frame, fix);
    let p = course::framed(h.frame, fix);
    h.motion = motion::track_heading(h.motion, p, now_ms);
    follow::add(h, crumbs, p);
    h.lap = passing(h.lap, p, h.motion.heading);
}

// The heading starts again from the next fix.
pub fn end_replay(h: &mut Homing)
    ensures { Changes (λ s. (end_replay s).state) h.old h.new }
{
    h.motion.from = None;
    h.motion.heading = None;
}
