// A fix recorded, and the guide brought up to date: with a following that begins by itself, or without one.

ghost use Rattle.std.specs.Prelude.{◌≡◌, true, ◌≤◌, ◌<◌, length};
ghost use Rattle.state.specs.declared.Line.TheVariants as lines;
ghost use Rattle.follow.specs.View.{HomingFit};
ghost use Rattle.update.specs.View.{Updates};
ghost use Rattle.calls.specs.Fix.{add_update, joined_course, retraced};
ghost use Rattle.fix.specs.Ready.{Grows, TurnsBack};

use crumbs::held::Crumbs;
use plane::Point;
use state::{Event, Homing, Line};

// p is added, and the guide brought up to date.
pub fn add_update(
    h: &mut Homing,
    crumbs: &mut [f32],
    course: &Crumbs,
    p: Point,
    now_ms: u64,
) -> Event
    requires fit { HomingFit h.old (length crumbs.old) (length course.now) }
    requires grows { Grows h.old }
    ensures { Updates (λ C. add_update C course.now p now_ms) h.old crumbs.old h.new result crumbs.new }
{
    follow::add(h, crumbs, p);
    update::update(h, crumbs, course, p, now_ms)
}

// Long enough along the course: it is followed from the segment joined.
pub fn joined_course(
    h: &mut Homing,
    crumbs: &mut [f32],
    course: &Crumbs,
    p: Point,
    now_ms: u64,
) -> Event
    requires fit { HomingFit h.old (length crumbs.old) (length course.now) }
    requires bound { (1 ≤ h.old.course.join_end) × (h.old.course.join_end < length course.now) }
    ensures { Updates (λ C. joined_course C course.now p now_ms) h.old crumbs.old h.new result crumbs.new }
{
    let end = h.course.join_end;
    follow::engage_at(h, course, Line::Course, end, now_ms);
    add_update(h, crumbs, course, p, now_ms);
    Event::Following
}

// The fixes since the turn ran back over the breadcrumb: they are cut off, and nothing waits.
fn turned_back(h: &mut Homing)
    requires { h.old.trail.retrace_len ≤ h.old.trail.len }
    ensures { TurnsBack h.old h.new }
{
    h.trail.len = h.trail.retrace_len;
    h.trail.window_len = 0;
    h.trail.retrace = 0;
}

// Long enough back along the breadcrumb: it is followed, if what is left leads anywhere.
pub fn retraced(h: &mut Homing, crumbs: &mut [f32], course: &Crumbs, p: Point, now_ms: u64) -> Event
    requires fit { HomingFit h.old (length crumbs.old) (length course.now) }
    requires retrace_len_bound { (h.old.trail.retrace_len ≤ h.old.trail.len) × (h.old.follow.line ≡ lines.Nothing) }
    ensures { Updates (λ C. retraced true C course.now p now_ms) h.old crumbs.old h.new result crumbs.new }
{
    turned_back(h);
    if follow::engage(h, crumbs, course, now_ms) {
        update::update(h, crumbs, course, p, now_ms);
        return Event::Following;
    }
    add_update(h, crumbs, course, p, now_ms)
}
