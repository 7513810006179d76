// The guide after a fix.
#![tactic(auto)]

ghost use Rattle.std.specs.Prelude.{◌≡◌, true, ◌&&◌, leb, List, ℕ, ◌≤◌, ◌<◌, length, Float};
ghost use Rattle.crumbs.specs.declared.Crumb.{Crumb};
ghost use Rattle.state.specs.State.{State, state_of};
ghost use Rattle.follow.specs.View.{HomingFit, Changes};
ghost use Rattle.matching.specs.Match.{on_line};
ghost use Rattle.matching.specs.View.{WhereFollowed};
ghost use Rattle.matching.specs.Followed.{followed};
ghost use Rattle.guide.specs.View.{Tells};
ghost use Rattle.update.specs.Update.{begun, matched_at, at_course_end, ended_with, matched_to, follow_on, update};
ghost use Rattle.update.specs.View.{Updates, comes_to, MatchedIn, Becomes};

use crumbs::held::Crumbs;
use matching::followed::Followed;
use matching::{distances, followed};
use plane::Point;
use segments::costs::Nearest;
use state::{Event, Homing, Line};

// A rider this near the course comes to its end there.
const COURSE_END_M: f32 = 25.0;

// What becomes of a following.
#[derive(Clone, Copy)]
enum Outcome {
    // Nothing is followed that leads on: straight to the start.
    Straight,
    // No segment is in reach: the guide stays as it was.
    Stays,
    // Following ends, and this is told.
    Ends(Event),
    // It goes on from this match.
    GoesOn(Nearest),
}

// ---- what becomes of a following

// On the course, and close enough to its end.
fn at_course_end(on: Line, near: Nearest) -> bool
    ensures { (s : State) → s.follow.line ≡ on → result ≡ at_course_end s near }
{
    matching::on_course(on) && near.off <= COURSE_END_M && near.along < guide::ARRIVE_M
}

// Dropped, at the course's end, or matched.
fn matched_to(on: Line, near: Nearest) -> Outcome
    ensures comes { (C at : ℕ) (course : List Crumb) (p : Point) (s : State) → s.follow.line ≡ on
        → matched_to C course p at near s ≡ comes_to result C course p at s }
    ensures stays_in { (len : ℕ) → (1 ≤ near.end) × (near.end < len) → MatchedIn len result }
{
    if near.off > distances::DROP_M {
        return Outcome::Ends(Event::Dropped);
    }
    if at_course_end(on, near) {
        return Outcome::Ends(Event::CourseEnd);
    }
    Outcome::GoesOn(near)
}

fn follow_on(f: &Followed, p: Point) -> Outcome
    requires { (2 ≤ length f.now.line.now) × (f.now.segment < length f.now.line.now) }
    ensures { WhereFollowed f.now
        (λ course s. ((C at : ℕ) → follow_on C course p at s ≡ comes_to result C course p at s)
        × MatchedIn (length f.now.line.now) result) }
{
    let best = followed::matched(f, p);
    let Some(near) = best else {
        return Outcome::Stays;
    };
    matched_to(f.on, near)
}

// Whether a line is followed that has a segment.
fn leads_on(on: Line, line: &Crumbs) -> bool
    ensures { result ≡ (on_line on && leb 2 (length line.now)) }
{
    matching::on_line(on) && 2 <= line.len()
}

// What becomes of a following at a fix at p.
fn outcome_at(f: &Followed, p: Point) -> Outcome
    requires { on_line f.now.on ≡ true → f.now.segment < length f.now.line.now }
    ensures { Becomes f.now p result }
{
    if leads_on(f.on, f.line) {
        return follow_on(f, p);
    }
    Outcome::Straight
}

// ---- the state after it

// Every update begins so: it is timed, and the lap is stepped.
fn begun(h: &mut Homing, p: Point, now_ms: u64)
    ensures { Changes (begun p now_ms) h.old h.new }
{
    h.lap = lap::step_pass(h.lap, p, h.motion.heading);
    h.updated_ms = now_ms;
}

// Matched: the guide along the line.
fn matched_at(
    h: &mut Homing,
    line: &Crumbs,
    crumbs: &Crumbs,
    course: &Crumbs,
    p: Point,
    now_ms: u64,
    near: Nearest,
) -> Event
    requires { (1 ≤ near.end) × (near.end < length line.now) }
    ensures { (b : List Float) → crumbs.now ≡ (state_of h.old b).track.crumbs → line.now ≡ followed course.now (state_of h.old b)
        → Tells (matched_at course.now p now_ms near) h.old b h.new result }
{
    let was = h.follow;
    let off = matching::off_now(was.off, near.off);
    let e = matching::off_event(was.off, off, matching::due(was, now_ms));
    let w = followed::way_on(line, off, near);
    h.follow = matching::follow_matched(near, off, e, now_ms, was);
    h.course = matching::course_matched(near, p, h.course);
    guide::finished(h, crumbs, course, p, w, e)
}

// Following ends, and the guide is made anew without it.
fn ended_with(
    e: Event,
    h: &mut Homing,
    crumbs: &mut [f32],
    course: &Crumbs,
    p: Point,
    now_ms: u64,
) -> Event
    requires { HomingFit h.old (length crumbs.old) (length course.now) }
    ensures updates { Updates (λ C. ended_with e C course.now p now_ms) h.old crumbs.old h.new result crumbs.new }
    ensures window { h.new.window ≡ h.old.window }
{
    follow::stop_following(h, crumbs);
    begun(h, p, now_ms);
    guide::direct(h, &Crumbs::new(crumbs, h.trail.len), course, p);
    e
}

// The guide after a fix at p.
pub fn update(h: &mut Homing, crumbs: &mut [f32], course: &Crumbs, p: Point, now_ms: u64) -> Event
    requires { HomingFit h.old (length crumbs.old) (length course.now) }
    ensures updates { Updates (λ C. update C course.now p now_ms) h.old crumbs.old h.new result crumbs.new }
    ensures window { h.new.window ≡ h.old.window }
{
    begun(h, p, now_ms);
    let held = Crumbs::new(crumbs, h.trail.len);
    // The course is lent again, for no longer than the breadcrumb.
    let f = followed::followed_by(h, &*course, &held);
    match outcome_at(&f, p) {
        Outcome::Straight => guide::direct(h, &held, course, p),
        Outcome::Stays => Event::Nothing,
        Outcome::Ends(e) => ended_with(e, h, crumbs, course, p, now_ms),
        Outcome::GoesOn(near) => matched_at(h, f.line, &held, course, p, now_ms, near),
    }
}
