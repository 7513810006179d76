// The calls of a rebuild: the breadcrumb read back from a chain file after a restart. Each is asked
// document 01's questions about what it is given, and a refusal changes nothing.
#![tactic(auto)]

ghost use Rattle.std.specs.Prelude.{◌≡◌, ◌+◌, ◌≤◌, min, max, length};
ghost use Rattle.refusal.specs.Refusal.{asked};
ghost use Rattle.trail.specs.View as trail;
ghost use Rattle.state.specs.State.{state_of};
ghost use Rattle.ride_log.specs.Entry.{slot as slot_of};
ghost use Rattle.ride_log.specs.Questions.{asks_file};
ghost use Rattle.rebuild.specs.Rebuild as rule;
ghost use Rattle.rebuild.specs.View.{Makes};
ghost use Rattle.restart.specs.Promises.{asks_step, Steps, SettlesBreadcrumb};

use rebuild::Rebuild;
use refusal::Refusal;
use ride_log::{Chain, Entry, file_questions};
use state::Homing;

// Read ride `recovered` and the ride after it back from a log whose slots below `upper` are written.
pub fn new(recovered: u32, upper: usize) -> Rebuild
    ensures { result ≡ rule.new_rebuild recovered }
{
    rebuild::new(recovered, upper)
}

// Every slot below `upper` is read.
pub fn caught_up(r: Rebuild, upper: usize) -> bool
    ensures { result ≡ rule.caught_up upper r }
{
    rebuild::caught_up(r, upper)
}

// ---- the walk over the slots

// The slot at which a walk from `slot` on stops.
fn stop_at(slot: usize, upper: usize, budget: usize) -> usize
    ensures { result ≡ max slot (min (slot + budget) upper) }
{
    slot.saturating_add(budget).min(upper).max(slot)
}

// An entry of a ride before the recovered one is not visited.
fn look(r: &mut Rebuild, h: &mut Homing, crumbs: &mut [f32], e: Entry)
    requires trail_fit { trail.TrailFit h.old.trail (length crumbs.old) }
    requires count_bound { e.count ≤ 4 }
    ensures { Makes (rule.look (Some e) r.old) h.old crumbs.old r.new h.new crumbs.new }
{
    if r.recovered <= e.ride {
        rebuild::visit(r, h, crumbs, e);
    }
}

// Past the end of the chain no slot has a record, and the walk goes to its last one at once.
fn walk_slots(
    r: &mut Rebuild,
    h: &mut Homing,
    crumbs: &mut [f32],
    file: &[u8],
    upper: usize,
    budget: usize,
)
    requires trail_fit { trail.TrailFit h.old.trail (length crumbs.old) }
    requires file_value { asks_file file.now ≡ 0 }
    ensures { Makes (rule.walk budget upper (slot_of file.now) r.old) h.old crumbs.old r.new h.new crumbs.new }
{
    let first = r.walk.slot;
    let stop = stop_at(first, upper, budget);
    for index in Chain::of(file).skip(first).take(stop - first) {
        look(r, h, crumbs, ride_log::entry_at(file, index));
        r.walk.slot += 1;
    }
    r.walk.slot = stop;
}

// ---- the calls

// Every slot is read, and the breadcrumb is settled.
#[tactic(auto, unfolding(rebuild::specs::Rebuild::takes_over))]
fn finished(r: Rebuild, upper: usize) -> bool
    ensures { result ≡ rule.takes_over upper r }
{
    rebuild::is_decided(r.stage) & caught_up(r, upper)
}

// The state and the crumb buffer, then the file.
#[tactic(auto, unfolding(crate::specs::Promises::asks_step))]
fn asks_step(h: &Homing, crumbs: &[f32], file: &[u8]) -> Result<(), Refusal>
    ensures { asked result ≡ asks_step (length crumbs.now) file.now (state_of h.now crumbs.now) }
{
    questions::asks_crumbs(h, crumbs)?;
    file_questions::asks_file(file)
}

// Read up to `budget` more slots below `upper` of the file into the breadcrumb; yes once every slot is
// read and the breadcrumb settled, when live fixes take over (`end_replay`).
pub fn step(
    r: &mut Rebuild,
    h: &mut Homing,
    crumbs: &mut [f32],
    file: &[u8],
    upper: usize,
    budget: usize,
) -> Result<bool, Refusal>
    ensures { Steps budget upper file.now r.old h.old crumbs.old r.new h.new result crumbs.new }
{
    asks_step(h, crumbs, file)?;
    walk_slots(r, h, crumbs, file, upper, budget);
    Ok(finished(*r, upper))
}

// Settle the breadcrumb on a live fix at `utc` instead of the later ride's first one in the log.
pub fn settle(r: &mut Rebuild, h: &mut Homing, utc: Option<u64>) -> Result<(), Refusal>
    ensures { SettlesBreadcrumb utc r.old h.old r.new h.new result }
{
    questions::asks_state(h)?;
    rebuild::settle(r, h, utc);
    Ok(())
}
