// The guide's calls that only answer. Each puts its questions first, and is refused where one says no.
#![tactic(auto, using(crate::proofs::Answering::answered), unfolding(calls::specs::Calls::asks, calls::specs::Calls::asks_lent))]

ghost use Rattle.std.specs.Prelude.{◌≡◌};
ghost use Rattle.state.specs.declared.Line.TheVariants as followed;
ghost use Rattle.calls.specs.Ask.{course_ahead_on, route_home_on, way_back_from};
ghost use Rattle.answers.specs.Promises.{AnswersLen, AnswersFollowing, AnswersFollowingCourse, AnswersCourseAhead, AnswersRouteHome};
ghost use Rattle.answers.specs.Promises.{AnswersHeading, AnswersGuide, AnswersWayBack, ReturnsCrumbs, ReturnsCourse, AnswersArrow};

use crumbs::held::Crumbs;
use plane::Point;
use questions::limits;
use refusal::Refusal;
use state::{Ahead, Back, Follow, Guide, Homing, Line};

// ---- of the state alone

// How many crumbs are held.
pub fn len(h: &Homing) -> Result<usize, Refusal>
    ensures { AnswersLen h.now result }
{
    questions::asks_state(h)?;
    Ok(h.trail.len)
}

// Whether the breadcrumb is followed back, or the course.
pub fn following(h: &Homing) -> Result<bool, Refusal>
    ensures { AnswersFollowing h.now result }
{
    questions::asks_state(h)?;
    Ok(h.follow.line != Line::Nothing)
}

pub fn following_course(h: &Homing) -> Result<bool, Refusal>
    ensures { AnswersFollowingCourse h.now result }
{
    questions::asks_state(h)?;
    Ok(h.follow.line == Line::Course)
}

// While that line is followed: the way on.
fn ahead_on(line: Line, f: Follow) -> Option<Ahead>
    ensures course { line ≡ followed.Course → result ≡ course_ahead_on f.line f }
    ensures home { line ≡ followed.Breadcrumb → result ≡ route_home_on f.line f }
{
    (f.line == line).then_some(Ahead {
        end: f.segment,
        point: f.matched,
    })
}

// While the course is followed: what is ahead of it.
pub fn course_ahead(h: &Homing) -> Result<Option<Ahead>, Refusal>
    ensures { AnswersCourseAhead h.now result }
{
    questions::asks_state(h)?;
    Ok(ahead_on(Line::Course, h.follow))
}

// While the breadcrumb is followed: the way home.
pub fn route_home(h: &Homing) -> Result<Option<Ahead>, Refusal>
    ensures { AnswersRouteHome h.now result }
{
    questions::asks_state(h)?;
    Ok(ahead_on(Line::Breadcrumb, h.follow))
}

// The way the rider is riding, while moving.
pub fn heading(h: &Homing) -> Result<Option<u16>, Refusal>
    ensures { AnswersHeading h.now result }
{
    questions::asks_state(h)?;
    Ok(h.motion.heading)
}

// The guide, while the fix is fresh.
pub fn guide(h: &Homing) -> Result<Option<Guide>, Refusal>
    ensures { AnswersGuide h.now result }
{
    questions::asks_state(h)?;
    Ok(h.guide)
}

// ---- of the state and a lent buffer

// The way back from where the rider is, over the crumbs that are held.
fn way_back_from(here: Option<Point>, held: &Crumbs<'_>) -> Option<Back>
    ensures { result ≡ way_back_from here held.now }
{
    let p = here?;
    let first = held.first()?;
    let direct = plane::distance(p, Point::from(first));
    let track = held.recorded_m(p);
    Some(Back {
        direct: binary32::as_u32(direct),
        track: binary32::as_u32(track),
    })
}

// While the fix is fresh: metres in a straight line from it to the ride's start, and metres of track
// ridden, the way back over it.
pub fn way_back(h: &Homing, crumbs: &[f32]) -> Result<Option<Back>, Refusal>
    ensures { AnswersWayBack h.now crumbs.now result }
{
    questions::asks_crumbs(h, crumbs)?;
    let held = Crumbs::new(crumbs, h.trail.len);
    Ok(way_back_from(h.here, &held))
}

// The kept crumbs, oldest first: the front part of the buffer.
pub fn crumbs<'a>(h: &Homing, lent: &'a [f32]) -> Result<&'a [f32], Refusal>
    ensures { ReturnsCrumbs h.now lent.now result }
{
    questions::asks_crumbs(h, lent)?;
    Ok(crumbs::front(lent, h.trail.len))
}

// The course, end first: the front part of the line; empty until placed.
pub fn course<'a>(h: &Homing, line: &'a [f32]) -> Result<&'a [f32], Refusal>
    ensures { ReturnsCourse h.now line.now result }
{
    questions::asks_line(h, line, 0)?;
    Ok(crumbs::front(line, h.course.line_len))
}

// ---- of a guide

// The arrow's angle, in 4096ths of a turn: relative to the heading, or north up without one.
pub fn arrow(g: Guide) -> Result<u16, Refusal>
    ensures { AnswersArrow g result }
{
    limits::asks_guide(g)?;
    let Some(heading) = g.heading else {
        return Ok(g.bearing);
    };
    Ok((g.bearing + plane::TURN - heading) % plane::TURN)
}
