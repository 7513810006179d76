// Where the rider is to arrive, and what the guide shows by it.

ghost use Rattle.std.specs.Prelude.{◌≡◌, ◌-◌, ◌≤◌, ◌<◌, length};
ghost use Rattle.guide.specs.Goal.{goal_on, long_enough, mode_of, aim, found_any, near_course};
ghost use Rattle.guide.specs.Near.{lies_near, some_near};
ghost use Rattle.search.specs.Course.{course_near};
ghost use Rattle.matching.specs.Distances.{drop_m};

use crumbs::held::Crumbs;
use matching::distances;
use plane::Point;
use state::{Line, Mode};

// A breadcrumb this long can be ridden back to its start.
const MIN_TRACK_M: f32 = 300.0;

// The least square whose root is above `distances::DROP_M`.
const BAR: f32 = 250000.015625;

// Where the rider is to arrive: the course's end while it is followed, else the start.
pub fn goal_on(on: Line, course: &Crumbs, start: Point) -> Point
    ensures { result ≡ goal_on on course.now start }
{
    match on {
        Line::Course => course.start(start),
        Line::Nothing | Line::Breadcrumb => start,
    }
}

// Whether the breadcrumb is long enough to arrive at its start; following a course, the end that counts
// is the course's.
pub fn long_enough(on_course: bool, crumbs: &Crumbs) -> bool
    ensures { result ≡ long_enough on_course crumbs.now }
{
    if on_course {
        return false;
    }
    crumbs
        .length_m()
        .is_some_and(|length| length >= MIN_TRACK_M)
}

// Arrived, or the mode of the way.
pub fn mode_of(arrived: bool, mode: Mode) -> Mode
    ensures { result ≡ mode_of arrived mode }
{
    if arrived {
        return Mode::Arrived;
    }
    mode
}

// Within a metre of the target the goal is shown.
pub fn aim(p: Point, goal: Point, target: Point) -> Point
    ensures { result ≡ aim p goal target }
{
    if plane::distance(p, target) < 1.0 {
        return goal;
    }
    target
}

// Whether segment `end` of the course lies within `distances::DROP_M`. A square of `BAR` or more has a root above that.
fn lies_near(course: &Crumbs, p: Point, end: usize) -> bool
    requires { (1 ≤ end) × (end < length course.now) }
    ensures { result ≡ lies_near course.now p end }
{
    let square = segments::square_on(course, p, end);
    if square < BAR {
        return binary32::sqrtf(square) <= distances::DROP_M;
    }
    false
}

// Whether some segment of the course lies within `distances::DROP_M`.
fn some_near(course: &Crumbs, p: Point) -> bool
    ensures { result ≡ some_near course.now p (length course.now - 1) }
{
    for end in (1..course.len()).rev() {
        if lies_near(course, p, end) {
            return true;
        }
    }
    false
}

// Whether the course's nearest segment lies within `distances::DROP_M`: some segment does, and the first tried is no NaN away.
fn found_near(course: &Crumbs, p: Point) -> bool
    ensures { result ≡ found_any (course_near course.now p drop_m) }
{
    let len = course.len();
    if len < 2 {
        return false;
    }
    let first = segments::square_on(course, p, len - 1);
    if !first.is_nan() {
        return some_near(course, p);
    }
    false
}

// The course is near where nothing is followed and it lies within `distances::DROP_M`.
pub fn near_course(on: Line, course: &Crumbs, p: Point) -> bool
    ensures { result ≡ near_course on course.now p }
{
    match on {
        Line::Nothing => found_near(course, p),
        Line::Breadcrumb | Line::Course => false,
    }
}
