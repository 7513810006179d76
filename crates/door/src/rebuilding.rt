// The calls of a rebuild, whose state lives in words of its own. Words that hold no rebuild, and slices
// that hold no state, are refused with 10.

ghost use Rattle.std.specs.Prelude.{◌≡◌, ◌≤◌, length};
ghost use Rattle.stored.specs.Stored.{word_count, number_count};
ghost use Rattle.std.specs.Bool.{then_some};
ghost use Rattle.stored.specs.Rebuilt.{rebuild_count};
ghost use Rattle.door.specs.Through.{is_set, Leaves};
ghost use Rattle.door.specs.Rebuild.{LeavesRebuild, RebuildNew, RebuildCaughtUp, slices, RebuildStep, RebuildSettle};

use crate::numbering;
use crate::numbering::NO_STATE;
use rebuild::Rebuild;
use state::Homing;

// ---- the rebuild alone

// Read ride `recovered` and the ride after it back from a log whose slots below `upper` are written.
pub fn cittumay_rebuild_new(rebuild: &mut [u64], recovered: u32, upper: usize) -> u8
    ensures { RebuildNew recovered rebuild.old result rebuild.new }
{
    if rebuild.len() < stored::REBUILD_WORDS {
        return NO_STATE;
    }
    let new = restart::new(recovered, upper);
    stored::store_rebuild(new, rebuild);
    0
}

// Every slot below `upper` is read.
pub fn cittumay_rebuild_caught_up(rebuild: &[u64], upper: usize, yes: &mut u8) -> u8
    ensures { RebuildCaughtUp upper rebuild.now result yes.old yes.new }
{
    let Some(r) = stored::load_rebuild(rebuild) else {
        return NO_STATE;
    };
    *yes = u8::from(restart::caught_up(r, upper));
    0
}

// ---- the rebuild and the guide

// Keeps what a call gave where no question refused it: where `number`, which the C interface answers, is 0.
fn keep_both(
    number: u8,
    r: Rebuild,
    h: Homing,
    rebuild: &mut [u64],
    words: &mut [u64],
    numbers: &mut [f32],
) -> u8
    requires rebuild_count_in_bounds { rebuild_count ≤ length rebuild.old }
    requires word_count_in_bounds { (word_count ≤ length words.old) × (number_count ≤ length numbers.old) }
    ensures value { result ≡ number }
    ensures leaves_rebuild { LeavesRebuild result r rebuild.old rebuild.new }
    ensures leaves { Leaves result h words.old numbers.old words.new numbers.new }
{
    if number != 0 {
        return number;
    }
    stored::store_rebuild(r, rebuild);
    stored::store(h, words, numbers);
    0
}

// Read up to `budget` more slots below `upper` of the file into the breadcrumb. `done` becomes 1 once every
// slot is read and the breadcrumb settled, when live fixes take over (`calling::end_replay`).
pub fn cittumay_rebuild_step(
    rebuild: &mut [u64],
    words: &mut [u64],
    numbers: &mut [f32],
    crumbs: &mut [f32],
    file: &[u8],
    upper: usize,
    budget: usize,
    done: &mut u8,
) -> u8
    ensures { RebuildStep budget upper file.now crumbs.old done.old
        (slices rebuild.old words.old numbers.old) result crumbs.new done.new
        (slices rebuild.new words.new numbers.new) }
{
    let Some(mut r) = stored::load_rebuild(rebuild) else {
        return numbering::no_state_with(crumbs.len());
    };
    let Some(mut h) = stored::load(words, numbers) else {
        return numbering::no_state_with(crumbs.len());
    };
    let answer = restart::step(&mut r, &mut h, crumbs, file, upper, budget);
    let number = numbering::put_flag(answer, done);
    keep_both(number, r, h, rebuild, words, numbers)
}

// Settle the breadcrumb on a live fix at `utc`, if that is known, instead of the later ride's first one in
// the log.
pub fn cittumay_rebuild_settle(
    rebuild: &mut [u64],
    words: &mut [u64],
    numbers: &mut [f32],
    known: u8,
    utc: u64,
) -> u8
    ensures { RebuildSettle (then_some (is_set known) utc) (slices rebuild.old words.old numbers.old) result
        (slices rebuild.new words.new numbers.new) }
{
    let Some(mut r) = stored::load_rebuild(rebuild) else {
        return NO_STATE;
    };
    let Some(mut h) = stored::load(words, numbers) else {
        return NO_STATE;
    };
    let answer = restart::settle(&mut r, &mut h, (known != 0).then_some(utc));
    let number = numbering::number_of(answer);
    keep_both(number, r, h, rebuild, words, numbers)
}
