// The guide's calls that change it. Each is asked document 01's questions about what it is given, and a
// refusal changes nothing. The calls that only answer are in `answers`.
#![tactic(auto)]

ghost use Rattle.std.specs.Prelude.{◌≡◌, List, ℕ, Float, length};
ghost use Rattle.refusal.specs.Refusal.{asked};
ghost use Rattle.state.specs.State.{state_of};
ghost use Rattle.course.specs.Course.{fixes};
ghost use Rattle.calls.specs.Calls as call;
ghost use Rattle.calls.specs.Calls.{asks};
ghost use Rattle.homing.specs.Promises.{MakesNew, DoesReset, EndsReplay, SetsCourse, SetsAuto, Observes, Replays, SetsFollowing};

use plane::Fix;
use questions::{counts, globe};
use refusal::Refusal;
use state::{Event, Homing};
use steer::following;

// ---- the guide made anew

// A breadcrumb in `crumbs`, whose room is the most crumbs kept. The state is a new guide's also where the buffer is refused.
pub fn new(crumbs: &[f32]) -> (Homing, Result<(), Refusal>)
    ensures { MakesNew crumbs.now result.0 result.1 }
{
    (
        steer::new(),
        Refusal::CrumbBuffer.unless(counts::question1(crumbs.len())),
    )
}

// Forget the breadcrumb: a new ride starts where its first fix is.
pub fn reset(h: &mut Homing) -> Result<(), Refusal>
    ensures { DoesReset h.old h.new result }
{
    questions::asks_state(h)?;
    steer::reset(h);
    Ok(())
}

// Live fixes follow the replayed ones.
pub fn end_replay(h: &mut Homing) -> Result<(), Refusal>
    ensures { EndsReplay h.old h.new result }
{
    questions::asks_state(h)?;
    fix::end_replay(h);
    Ok(())
}

// ---- the course

// The questions put to a course: the state, the line, then each of its points.
fn asks_course(h: &Homing, line: &[f32], lats: &[i32], lons: &[i32]) -> Result<(), Refusal>
    ensures { (b : List Float)
        → asked result ≡ asks (length b) (call.SetCourse line.now (fixes lats.now lons.now)) (state_of h.now b) }
{
    questions::asks_line(h, line, course::count(lats, lons))?;
    globe::asks_fixes(lats, lons)
}

// The course to follow, start first; fewer than two points clear it. It is placed in the line now if the
// ride has a fix.
pub fn set_course(
    h: &mut Homing,
    line: &mut [f32],
    lats: &[i32],
    lons: &[i32],
) -> Result<(), Refusal>
    ensures { SetsCourse (fixes lats.now lons.now) h.old line.old h.new result line.new }
{
    asks_course(h, line, lats, lons)?;
    steer::set_course(h, line, lats, lons);
    Ok(())
}

// ---- a fix

// The questions put to a fix: the state and the two buffers, then the place.
fn asks_seen(h: &Homing, crumbs: &[f32], line: &[f32], fix: Fix) -> Result<(), Refusal>
    ensures { (at : ℕ) → asked result ≡ asks (length crumbs.now) (call.Observe line.now (Some fix) at)
        (state_of h.now crumbs.now) }
{
    questions::asks_both(h, crumbs, line)?;
    globe::asks_fix(fix)
}

fn seen(
    h: &mut Homing,
    crumbs: &mut [f32],
    line: &[f32],
    fix: Fix,
    now_ms: u64,
) -> Result<Event, Refusal>
    ensures { Observes line.now (Some fix) now_ms h.old crumbs.old h.new result crumbs.new }
{
    asks_seen(h, crumbs, line, fix)?;
    Ok(fix::observe::seen(h, crumbs, line, fix, now_ms))
}

fn missing(h: &mut Homing, crumbs: &[f32], line: &[f32], now_ms: u64) -> Result<Event, Refusal>
    ensures { Observes line.now None now_ms h.old crumbs.now h.new result crumbs.now }
{
    questions::asks_both(h, crumbs, line)?;
    fix::missing(h, now_ms);
    Ok(Event::Nothing)
}

// The ride's position, if fresh.
pub fn observe(
    h: &mut Homing,
    crumbs: &mut [f32],
    line: &[f32],
    place: Option<Fix>,
    now_ms: u64,
) -> Result<Event, Refusal>
    ensures { Observes line.now place now_ms h.old crumbs.old h.new result crumbs.new }
{
    let Some(fix) = place else {
        return missing(h, crumbs, line, now_ms);
    };
    seen(h, crumbs, line, fix, now_ms)
}

// The questions put to a fix from before a restart.
fn asks_replay(h: &Homing, crumbs: &[f32], fix: Fix) -> Result<(), Refusal>
    ensures { (at : ℕ) → asked result ≡ asks (length crumbs.now) (call.Replay fix at) (state_of h.now crumbs.now) }
{
    questions::asks_crumbs(h, crumbs)?;
    globe::asks_fix(fix)
}

// A fix from before a restart, `at_ms` into the replay: it grows the breadcrumb, but follows nothing.
pub fn replay(h: &mut Homing, crumbs: &mut [f32], fix: Fix, at_ms: u64) -> Result<(), Refusal>
    ensures { Replays fix at_ms h.old crumbs.old h.new result crumbs.new }
{
    asks_replay(h, crumbs, fix)?;
    fix::replay(h, crumbs, fix, at_ms);
    Ok(())
}

// ---- what the rider chooses

// Whether riding back over the breadcrumb, or along the course, starts following it.
pub fn set_auto_follow(h: &mut Homing, crumbs: &mut [f32], on: bool) -> Result<(), Refusal>
    ensures { SetsAuto on h.old crumbs.old h.new result crumbs.new }
{
    questions::asks_crumbs(h, crumbs)?;
    following::set_auto_follow(h, crumbs, on);
    Ok(())
}

// Follow the course while it is near, else the breadcrumb back; or stop following.
pub fn set_following(
    h: &mut Homing,
    crumbs: &mut [f32],
    line: &[f32],
    follow: bool,
    now_ms: u64,
) -> Result<bool, Refusal>
    ensures { SetsFollowing line.now follow now_ms h.old crumbs.old h.new result crumbs.new }
{
    questions::asks_both(h, crumbs, line)?;
    Ok(following::set_following(h, crumbs, line, follow, now_ms))
}
