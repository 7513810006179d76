// What makes following begin by itself: fixes in a row along the course, or back along the breadcrumb.
#![tactic(auto)]

mod retrace;

ghost use Rattle.std.specs.Prelude.{◌≡◌, ◌≤◌, ◌<◌, List, Float, length};
ghost use Rattle.crumbs.specs.Crumb.{capacity};
ghost use Rattle.state.specs.State.{state_of};
ghost use Rattle.follow.specs.View.{Asks};
ghost use Rattle.joining.specs.Join.{join_on, join_with, may_join, joining, retracing};

use crumbs::held::Crumbs;
use plane::Point;
use state::Homing;

// ---- along the course

// Fixes in a row along the course.
const JOIN_FIXES: u8 = 5;

fn join_on(h: &mut Homing, join: Option<usize>) -> bool
    ensures { (b : List Float) → Asks (join_on join) h.old b h.new result }
{
    let Some(end) = join else {
        h.course.join_fixes = 0;
        return false;
    };
    h.course.join_fixes = h.course.join_fixes.saturating_add(1);
    h.course.join_end = end;
    JOIN_FIXES <= h.course.join_fixes
}

#[tactic(auto, unfolding(crate::specs::Join::may_join))]
fn may_join(h: &Homing, course: &Crumbs) -> bool
    ensures { (b : List Float) → result ≡ may_join course.now (state_of h.now b) }
{
    h.auto_follow && !h.course.held && 2 <= course.len()
}

#[tactic(auto, unfolding(crate::specs::Join::join_with))]
fn join_with(h: &Homing, course: &Crumbs, p: Point) -> Option<usize>
    ensures { (b : List Float) → result ≡ join_with h.now.motion.heading course.now p (state_of h.now b) }
{
    let known = h.motion.heading?;
    if may_join(h, course) {
        return search::joined(course, p, known);
    }
    None
}

// Whether this fix continues a ride along the course, its way, for long enough to follow it.
pub fn joining(h: &mut Homing, course: &Crumbs, p: Point) -> bool
    ensures { (b : List Float) → Asks (joining course.now p) h.old b h.new result }
{
    let join = join_with(h, course, p);
    join_on(h, join)
}

// Whether this fix continues a ride back along the breadcrumb for long enough to follow it.
pub fn retracing(h: &mut Homing, crumbs: &[f32], p: Point) -> bool
    requires { (h.old.trail.len ≤ capacity (length crumbs.now)) × (h.old.trail.retrace < 255) }
    ensures { Asks (retracing p) h.old crumbs.now h.new result }
{
    let line = Crumbs::new(crumbs, h.trail.len);
    if retrace::rides_back(&line, p, h.motion.heading) {
        h.trail.retrace_len = retrace::len_before(h.trail);
        h.trail.retrace += 1;
        return trail::RETRACE_FIXES <= h.trail.retrace;
    }
    h.trail.retrace = 0;
    false
}
