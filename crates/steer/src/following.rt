// What the rider chooses: following begun and ended, by hand or by itself.

ghost use Rattle.std.specs.Prelude.{◌≡◌, ◌≤◌, length};
ghost use Rattle.crumbs.specs.Crumb.{capacity};
ghost use Rattle.trail.specs.View as trail;
ghost use Rattle.state.specs.declared.Line.TheVariants as followed;
ghost use Rattle.follow.specs.View.{HomingFit, course_of, Follows};
ghost use Rattle.segments.specs.Inner.{InLine};
ghost use Rattle.calls.specs.Follow.{follow, follow_from, set_following, auto_off, set_auto_follow};
ghost use Rattle.steer.specs.Decides.{Decides};

use crate::way_home;
use crumbs::held::Crumbs;
use segments::costs::Nearest;
use state::{Homing, Line};

// The course where it was found near, else the breadcrumb back.
fn follow_best(
    best: Option<Nearest>,
    h: &mut Homing,
    crumbs: &mut [f32],
    course: &Crumbs,
    now_ms: u64,
) -> bool
    requires homing_fit { HomingFit h.old (length crumbs.old) (length course.now) }
    requires line_value { InLine (length course.now) best }
    ensures { Decides (λ C. follow best C course.now now_ms) h.old crumbs.old h.new result crumbs.new }
{
    let Some(near) = best else {
        return way_home::way_home(h, crumbs, course, now_ms);
    };
    follow::engage_at(h, course, Line::Course, near.end, now_ms);
    way_home::brought(h, crumbs, course, now_ms)
}

// What is followed already is followed on.
fn follow_from(h: &mut Homing, crumbs: &mut [f32], course: &Crumbs, now_ms: u64) -> bool
    requires { HomingFit h.old (length crumbs.old) (length course.now) }
    ensures { Decides (λ C. follow_from h.old.follow.line C course.now now_ms)
        h.old crumbs.old h.new result crumbs.new }
{
    match h.follow.line {
        Line::Nothing => {
            let best = way_home::near_here(h.here, course);
            follow_best(best, h, crumbs, course, now_ms)
        }
        Line::Breadcrumb | Line::Course => way_home::brought(h, crumbs, course, now_ms),
    }
}

// Start or stop following. Starting follows the course while it is near, else the breadcrumb back, and answers no where there is no
// way back.
pub fn set_following(
    h: &mut Homing,
    crumbs: &mut [f32],
    line: &[f32],
    follow: bool,
    now_ms: u64,
) -> bool
    requires { (HomingFit h.old (length crumbs.old) h.old.course.line_len)
        × (h.old.course.line_len ≤ capacity (length line.now)) }
    ensures { Decides (λ C. set_following follow C (course_of h.old line.now) now_ms)
        h.old crumbs.old h.new result crumbs.new }
{
    let course = Crumbs::new(line, h.course.line_len);
    if follow {
        return follow_from(h, crumbs, &course, now_ms);
    }
    follow::stop_following(h, crumbs);
    way_home::brought(h, crumbs, &course, now_ms)
}

// ---- following by itself

// Turned off, it also stops a following under way.
fn auto_off(h: &mut Homing, crumbs: &mut [f32])
    requires { (trail.TrailFit h.old.trail (length crumbs.old))
        × (h.old.follow.line ≡ followed.Breadcrumb → h.old.follow.segment ≤ h.old.trail.len) }
    ensures { Follows (auto_off h.old.auto_follow) h.old crumbs.old h.new crumbs.new }
{
    if h.auto_follow {
        follow::stop_following(h, crumbs);
    }
    h.auto_follow = false;
}

// Whether riding back over the breadcrumb, or along the course, starts following it.
pub fn set_auto_follow(h: &mut Homing, crumbs: &mut [f32], on: bool)
    requires { (trail.TrailFit h.old.trail (length crumbs.old))
        × (h.old.follow.line ≡ followed.Breadcrumb → h.old.follow.segment ≤ h.old.trail.len) }
    ensures { Follows (set_auto_follow on) h.old crumbs.old h.new crumbs.new }
{
    if on {
        h.auto_follow = true;
    } else {
        auto_off(h, crumbs);
    }
}
