// What a new fix does, by the line that is followed. What a fix is handed stays apart, here and in `recording`: each function hands on
// another part of it, and a struct would lend the state and the crumb buffer a second time.

ghost use Rattle.std.specs.Prelude.{◌≡◌, length};
ghost use Rattle.state.specs.declared.Line.TheVariants as lines;
ghost use Rattle.update.specs.View.{Updates};
ghost use Rattle.calls.specs.Fix.{may_retrace, fix_on};
ghost use Rattle.fix.specs.Ready.{Ready};

use crate::recording;
use crumbs::held::Crumbs;
use plane::Point;
use state::{Event, Homing, Line};

// Whether the fix runs back over the breadcrumb, where following may begin by itself.
fn may_retrace(h: &mut Homing, crumbs: &mut [f32], course: &Crumbs, p: Point, now_ms: u64) -> Event
    requires ready { Ready h.old (length crumbs.old) (length course.now) }
    requires line_value { h.old.follow.line ≡ lines.Nothing }
    ensures { Updates (λ C. may_retrace h.old.auto_follow C course.now p now_ms)
        h.old crumbs.old h.new result crumbs.new }
{
    if h.auto_follow && joining::retracing(h, crumbs, p) {
        return recording::retraced(h, crumbs, course, p, now_ms);
    }
    recording::add_update(h, crumbs, course, p, now_ms)
}

// Nothing is followed: the fix may begin a following, or is recorded.
fn unfollowed(h: &mut Homing, crumbs: &mut [f32], course: &Crumbs, p: Point, now_ms: u64) -> Event
    requires ready { Ready h.old (length crumbs.old) (length course.now) }
    requires line_value { h.old.follow.line ≡ lines.Nothing }
    ensures { Updates (λ C. fix_on lines.Nothing C course.now p now_ms) h.old crumbs.old h.new result crumbs.new }
{
    if joining::joining(h, course, p) {
        return recording::joined_course(h, crumbs, course, p, now_ms);
    }
    may_retrace(h, crumbs, course, p, now_ms)
}

// By the line that is followed: the breadcrumb is frozen while it is.
pub fn fix_on(h: &mut Homing, crumbs: &mut [f32], course: &Crumbs, p: Point, now_ms: u64) -> Event
    requires { Ready h.old (length crumbs.old) (length course.now) }
    ensures { Updates (λ C. fix_on h.old.follow.line C course.now p now_ms) h.old crumbs.old h.new result crumbs.new }
{
    match h.follow.line {
        Line::Breadcrumb => update::update(h, crumbs, course, p, now_ms),
        Line::Course => recording::add_update(h, crumbs, course, p, now_ms),
        Line::Nothing => unfollowed(h, crumbs, course, p, now_ms),
    }
}
