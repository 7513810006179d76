// What the rider and the device choose, once the questions are answered. Here: the guide made anew, and a course
// set. `following` has following begun and ended, `way_home` the breadcrumb followed back.
#![tactic(auto)]

pub mod following;
mod way_home;

ghost use Rattle.std.specs.Prelude.{◌≡◌, ◌≤◌, length};
ghost use Rattle.crumbs.specs.Crumb.{capacity};
ghost use Rattle.follow.specs.View.{Changes};
ghost use Rattle.course.specs.Course.{fixes};
ghost use Rattle.calls.specs.Line.{lined, awaiting, off_course};
ghost use Rattle.steer.specs.View.{MadeNew, Resets, SetsLine};

use follow::follow_parts::UNFOLLOWED;
use lap::{Lap, Stage, StartPass};
use motion::Motion;
use state::{Course, Follow, Frame, Homing, Line};
use trail::Trail;

// ---- made anew

// No pass of the start is under way.
const NO_LAP: Lap = Lap {
    pass: StartPass {
        stage: Stage::Spent,
    },
    start: None,
    passed: false,
};

const UNMOVED: Motion = Motion {
    from: None,
    heading: None,
    heading_ms: 0,
};

const NO_COURSE: Course = Course {
    line_len: 0,
    unplaced: false,
    held: false,
    join_fixes: 0,
    join_end: 0,
    along: 0.0,
    reached: 0.0,
    fix: None,
};

// A guide that has recorded nothing, follows nothing and knows of no course.
pub fn new() -> Homing
    ensures { MadeNew result }
{
    Homing {
        trail: Trail::new(),
        window: [0.0; trail::NUMBERS],
        frame: Frame {
            origin: None,
            east_per_e7: plane::M_PER_E7,
        },
        fed: None,
        here: None,
        here_ms: 0,
        motion: UNMOVED,
        follow: UNFOLLOWED,
        course: NO_COURSE,
        auto_follow: true,
        arrived: false,
        lap: NO_LAP,
        updated_ms: 0,
        guide: None,
    }
}

// A course of `line_len` points, joined by no fix yet.
fn lined(c: Course, line_len: usize, unplaced: bool, held: bool) -> Course
    ensures { result ≡ lined line_len unplaced held c }
{
    Course {
        line_len,
        unplaced,
        held,
        join_fixes: 0,
        ..c
    }
}

// A loaded course stays, to be placed again from the next ride's first fix.
fn awaiting(c: Course) -> Course
    ensures { result ≡ awaiting c }
{
    lined(c, 0, c.unplaced | (c.line_len >= 2), false)
}

// Forget the breadcrumb: a new ride starts where its first fix is.
pub fn reset(h: &mut Homing)
    ensures { Resets h.old h.new }
{
    h.trail.reset();
    h.frame.origin = None;
    h.fed = None;
    h.here = None;
    h.motion = Motion {
        heading_ms: h.motion.heading_ms,
        ..UNMOVED
    };
    h.follow = Follow {
        reminded_ms: h.follow.reminded_ms,
        ..UNFOLLOWED
    };
    h.course = awaiting(h.course);
    h.arrived = false;
    h.lap = NO_LAP;
    h.guide = None;
}

// ---- a course set

// A following of the course ends; one of the breadcrumb goes on.
fn off_course(h: &mut Homing)
    ensures { Changes (off_course h.old.follow.line) h.old h.new }
{
    if h.follow.line == Line::Course {
        follow::stop_course(h);
    }
}

// The course to follow, start first; fewer than two points clear it. It is placed now if the ride has a
// fix, else it waits for one.
pub fn set_course(h: &mut Homing, line: &mut [f32], lats: &[i32], lons: &[i32])
    requires { length (fixes lats.now lons.now) ≤ capacity (length line.old) }
    ensures { SetsLine (fixes lats.now lons.now) h.old line.old h.new line.new }
{
    let line_len = course::place(h.frame, lats, lons, line);
    let unplaced = course::waits(h.frame, lats, lons);
    off_course(h);
    h.course = lined(h.course, line_len, unplaced, h.course.held);
}
