// The guide shown: arriving at the start and leaving it, and the way there.
#![tactic(auto)]

mod goal;

ghost use Rattle.std.specs.Prelude.{◌≡◌, List, Float};
ghost use Rattle.crumbs.specs.declared.Crumb.{Crumb};
ghost use Rattle.state.specs.State.{state_of};
ghost use Rattle.guide.specs.Guide.{arrival_from, guide_at, finished, direct};
ghost use Rattle.guide.specs.View.{TellsOf};

use crumbs::held::Crumbs;
use matching::followed::Way;
use plane::Point;
use state::{Event, Guide, Homing, Mode};

// At the start, or the course's end, within this; at the start again only after leaving by `LEAVE_M`.
pub const ARRIVE_M: f32 = 30.0;

const LEAVE_M: f32 = 80.0;

// Arrived or left, or as it was.
fn arrival_from(h: &mut Homing, long: bool, direct: f32, e: Event) -> Event
    ensures { (l : List Crumb) (b : List Float) → TellsOf (arrival_from h.old.arrived long direct e) l h.old b h.new result }
{
    if h.arrived {
        h.arrived = !(direct > LEAVE_M);
        return e;
    }
    if long && direct < ARRIVE_M {
        h.arrived = true;
        h.follow.off = false;
        return Event::Arrived;
    }
    e
}

fn guide_at(h: &Homing, course: &Crumbs, p: Point, goal: Point, direct: f32, w: Way) -> Guide
    ensures { (b : List Float) → result ≡ guide_at course.now p goal direct w (state_of h.now b) }
{
    let on = h.follow.line;
    Guide {
        mode: goal::mode_of(h.arrived, w.mode),
        following: matching::on_line(on),
        course: matching::on_course(on),
        course_near: goal::near_course(on, course, p),
        direct_m: plane::metres(direct),
        track_m: plane::metres(w.track),
        off_m: plane::metres(w.off),
        bearing: plane::bearing(p, goal::aim(p, goal, w.target)),
        heading: h.motion.heading,
    }
}

// Every update that shows a guide ends so.
pub fn finished(
    h: &mut Homing,
    crumbs: &Crumbs,
    course: &Crumbs,
    p: Point,
    w: Way,
    e: Event,
) -> Event
    ensures { (b : List Float) → TellsOf (finished course.now p w e) crumbs.now h.old b h.new result }
{
    let on = h.follow.line;
    let goal = goal::goal_on(on, course, crumbs.start(p));
    let direct = plane::distance(p, goal);
    let long = goal::long_enough(matching::on_course(on), crumbs);
    let told = arrival_from(h, long, direct, e);
    h.guide = Some(guide_at(h, course, p, goal, direct, w));
    told
}

// Nothing to follow: straight to the start.
pub fn direct(h: &mut Homing, crumbs: &Crumbs, course: &Crumbs, p: Point) -> Event
    ensures { (b : List Float) → TellsOf (direct course.now p) crumbs.now h.old b h.new result }
{
    let w = Way {
        mode: Mode::Direct,
        track: crumbs.recorded_m(p),
        off: 0.0,
        target: crumbs.start(p),
    };
    finished(h, crumbs, course, p, w, Event::Nothing)
}
