// The breadcrumb followed back, and the guide brought up to date with what is followed.

ghost use Rattle.std.specs.Prelude.{◌≡◌, length};
ghost use Rattle.follow.specs.View.{HomingFit};
ghost use Rattle.calls.specs.Follow.{brought, way_home, near_here};
ghost use Rattle.steer.specs.Decides.{Decides};

use crumbs::held::Crumbs;
use matching::distances;
use plane::Point;
use segments::costs::Nearest;
use state::Homing;

// The guide brought up to date where there is a place to show. The answer is yes.
pub fn brought(h: &mut Homing, crumbs: &mut [f32], course: &Crumbs, now_ms: u64) -> bool
    requires { HomingFit h.old (length crumbs.old) (length course.now) }
    ensures decides { Decides (λ C. brought C course.now now_ms) h.old crumbs.old h.new result crumbs.new }
    ensures window { h.new.window ≡ h.old.window }
{
    if let Some(p) = h.here {
        update::update(h, crumbs, course, p, now_ms);
    }
    true
}

// Follow the breadcrumb back: it ends where the rider turns round. A following that began is shown; where none did the answer is no.
pub fn way_home(h: &mut Homing, crumbs: &mut [f32], course: &Crumbs, now_ms: u64) -> bool
    requires { HomingFit h.old (length crumbs.old) (length course.now) }
    ensures decides { Decides (λ C. way_home C course.now now_ms) h.old crumbs.old h.new result crumbs.new }
    ensures window { h.new.window ≡ h.old.window }
{
    follow::flush(h, crumbs);
    follow::engage(h, crumbs, course, now_ms) && brought(h, crumbs, course, now_ms)
}

// The course's nearest segment while the course is near.
pub fn near_here(here: Option<Point>, course: &Crumbs) -> Option<Nearest>
    ensures { result ≡ near_here here course.now }
{
    search::course_near(course, here?, distances::DROP_M)
}
