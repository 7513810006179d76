// A fix that is there, repeated or new, once the questions are answered.

ghost use Rattle.std.specs.Prelude.{◌≡◌, ◌≤◌, length};
ghost use Rattle.crumbs.specs.Crumb.{capacity};
ghost use Rattle.follow.specs.View.{HomingFit, course_of};
ghost use Rattle.update.specs.View.{Updates};
ghost use Rattle.calls.specs.Fix.{same_fix, still_at, new_fix, seen};
ghost use Rattle.fix.specs.Ready.{Ready};

use crumbs::held::Crumbs;
use plane::Fix;
use state::{Event, Homing};

// A repeated fix is acted on this long after the last update.
const STILL_MS: u64 = 1_000;

// ---- a repeated fix

fn same_fix(fed: Option<Fix>, fix: Fix) -> bool
    ensures { result ≡ same_fix fed fix }
{
    fed == Some(fix)
}

// Time still passes, for the heading and the reminders, but nothing is recorded.
fn still_at(h: &mut Homing, crumbs: &mut [f32], course: &Crumbs, now_ms: u64) -> Event
    requires { HomingFit h.old (length crumbs.old) (length course.now) }
    ensures { Updates (λ C. still_at h.old.here C course.now now_ms) h.old crumbs.old h.new result crumbs.new }
{
    let Some(p) = h.here else {
        return Event::Nothing;
    };
    if motion::elapsed(now_ms, h.updated_ms) < STILL_MS {
        return Event::Nothing;
    }
    h.motion = motion::track_heading(h.motion, p, now_ms);
    update::update(h, crumbs, course, p, now_ms)
}

// The fix is the new place, seen now, in the frame that the ride's first fix gave, and the heading goes by it.
fn new_fix(h: &mut Homing, crumbs: &mut [f32], course: &Crumbs, fix: Fix, now_ms: u64) -> Event
    requires { Ready h.old (length crumbs.old) (length course.now) }
    ensures { Updates (λ C. new_fix C course.now fix now_ms) h.old crumbs.old h.new result crumbs.new }
{
    h.fed = Some(fix);
    h.frame = course::located(h.frame, fix);
    let p = course::framed(h.frame, fix);
    h.here = Some(p);
    h.motion = motion::track_heading(h.motion, p, now_ms);
    crate::new_fix::fix_on(h, crumbs, course, p, now_ms)
}

// A fix that is there: repeated, or new.
pub fn seen(h: &mut Homing, crumbs: &mut [f32], line: &[f32], fix: Fix, now_ms: u64) -> Event
    requires { (Ready h.old (length crumbs.old) h.old.course.line_len)
        × (h.old.course.line_len ≤ capacity (length line.now)) }
    ensures { Updates (λ C. seen C (course_of h.old line.now) fix now_ms) h.old crumbs.old h.new result crumbs.new }
{
    let course = Crumbs::new(line, h.course.line_len);
    h.here_ms = now_ms;
    if same_fix(h.fed, fix) {
        return still_at(h, crumbs, &course, now_ms);
    }
    new_fix(h, crumbs, &course, fix, now_ms)
}
