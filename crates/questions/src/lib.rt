// The questions put to a call. Each `asks` refuses by the first one that says no. What they ask of less than the whole state is in
// `limits`, `counts` and `globe`.
#![tactic(auto)]

pub mod counts;
pub mod globe;
pub mod limits;

ghost use Rattle.std.specs.Prelude.{◌≡◌, List, Float, length};
ghost use Rattle.refusal.specs.Refusal.{asked};
ghost use Rattle.state.specs.State.{state_of};
ghost use Rattle.calls.specs.Questions.{counts_fit, spots_fit, state_fits, asks_state, asks_crumbs, asks_line, asks_both};

use refusal::Refusal;
use state::Homing;

// ---- 10: the state

fn counts_fit(h: &Homing) -> bool
    ensures { (b : List Float) → result ≡ counts_fit (state_of h.now b) }
{
    (h.trail.window_len <= trail::WINDOW)
        & counts::follow_fits(
            h.follow.line,
            h.follow.segment,
            h.trail.len,
            h.course.line_len,
        )
        & counts::retrace_fits(h.trail)
}

fn spots_fit(h: &Homing) -> bool
    ensures { (b : List Float) → result ≡ spots_fit (state_of h.now b) }
{
    limits::spot_fits(h.here)
        & limits::spot_fits(h.motion.from)
        & limits::spot_fits(h.follow.matched)
        & limits::spot_fits(h.course.fix)
        & limits::spot_fits(h.lap.start)
}

// The counts, then the numbers.
fn state_fits(h: &Homing) -> bool
    ensures { (b : List Float) → result ≡ state_fits (state_of h.now b) }
{
    if !counts_fit(h) {
        return false;
    }
    counts::window_fits(&h.window, h.trail.window_len)
        & spots_fit(h)
        & limits::along_fits(h.course.along)
        & limits::along_fits(h.course.reached)
        & limits::heading_fits(h.motion.heading)
        & limits::shown_fits(h.guide)
        & limits::factor_fits(h.frame.east_per_e7)
        & limits::tolerance_fits(h.trail.tolerance)
}

// ---- the questions a call is asked, by what it is given

// The state alone.
#[tactic(auto, unfolding(calls::specs::Questions::asks_state))]
pub fn asks_state(h: &Homing) -> Result<(), Refusal>
    ensures { (b : List Float) → asked result ≡ asks_state (state_of h.now b) }
{
    Refusal::State.unless(state_fits(h))
}

// The state and a crumb buffer.
#[tactic(auto, using(crate::proofs::Counted::held_counted), unfolding(calls::specs::Questions::asks_crumbs))]
pub fn asks_crumbs(h: &Homing, crumbs: &[f32]) -> Result<(), Refusal>
    ensures { asked result ≡ asks_crumbs (length crumbs.now) (state_of h.now crumbs.now) }
{
    Refusal::CrumbBuffer.unless(counts::question1(crumbs.len()))?;
    Refusal::State.unless(state_fits(h) & counts::held_fits(crumbs, h.trail.len))
}

// The state and a lent line, and `n` points for it.
#[tactic(auto, unfolding(calls::specs::Questions::asks_line, calls::specs::Questions::line_fits))]
pub fn asks_line(h: &Homing, line: &[f32], n: usize) -> Result<(), Refusal>
    ensures { (b : List Float) → asked result ≡ asks_line line.now n (state_of h.now b) }
{
    Refusal::State.unless(state_fits(h) & counts::held_fits(line, h.course.line_len))?;
    Refusal::LineBuffer.unless(counts::question4(line.len(), n))
}

// The state, a crumb buffer and a lent line.
#[tactic(auto, using(crate::proofs::Asking::both_split), unfolding(calls::specs::Questions::line_fits))]
pub fn asks_both(h: &Homing, crumbs: &[f32], line: &[f32]) -> Result<(), Refusal>
    ensures { asked result ≡ asks_both (length crumbs.now) line.now (state_of h.now crumbs.now) }
{
    asks_crumbs(h, crumbs)?;
    Refusal::State.unless(counts::held_fits(line, h.course.line_len))?;
    Refusal::LineBuffer.unless(counts::question4(line.len(), 0))
}
