// The calls of a rebuild, whose state lives in words of its own. Words that hold no rebuild, and slices
// that hold no state, are refused with 10.

ghost use Rattle.std.specs.Bool.{then_some};
ghost use Rattle.door.specs.Through.{is_set};
ghost use Rattle.door.specs.Rebuild.{RebuildNew, RebuildCaughtUp, slices, RebuildStep, RebuildSettle};

use door::rebuilding;

// Read ride `recovered` and the ride after it back from a log whose slots below `upper` are written.
#[unsafe(no_mangle)]
pub extern "C" fn cittumay_rebuild_new(rebuild: &mut [u64], recovered: u32, upper: usize) -> u8
    ensures { RebuildNew recovered rebuild.old result rebuild.new }
{
    rebuilding::cittumay_rebuild_new(rebuild, recovered, upper)
}

// Every slot below `upper` is read.
#[unsafe(no_mangle)]
pub extern "C" fn cittumay_rebuild_caught_up(rebuild: &[u64], upper: usize, yes: &mut u8) -> u8
    ensures { RebuildCaughtUp upper rebuild.now result yes.old yes.new }
{
    rebuilding::cittumay_rebuild_caught_up(rebuild, upper, yes)
}

// Read up to `budget` more slots below `upper` of the file into the breadcrumb. `done` becomes 1 once every
// slot is read and the breadcrumb settled, when live fixes take over (`calling::end_replay`).
#[unsafe(no_mangle)]
pub extern "C" fn cittumay_rebuild_step(
    rebuild: &mut [u64],
    words: &mut [u64],
    numbers: &mut [f32],
    crumbs: &mut [f32],
    file: &[u8],
    upper: usize,
    budget: usize,
    done: &mut u8,
) -> u8
    ensures { RebuildStep budget upper file.now crumbs.old done.old
        (slices rebuild.old words.old numbers.old) result crumbs.new done.new
        (slices rebuild.new words.new numbers.new) }
{
    rebuilding::cittumay_rebuild_step(rebuild, words, numbers, crumbs, file, upper, budget, done)
}

// Settle the breadcrumb on a live fix at `utc`, if that is known, instead of the later ride's first one in
// the log.
#[unsafe(no_mangle)]
pub extern "C" fn cittumay_rebuild_settle(
    rebuild: &mut [u64],
    words: &mut [u64],
    numbers: &mut [f32],
    known: u8,
    utc: u64,
) -> u8
    ensures { RebuildSettle (then_some (is_set known) utc) (slices rebuild.old words.old numbers.old) result
        (slices rebuild.new words.new numbers.new) }
{
    rebuilding::cittumay_rebuild_settle(rebuild, words, numbers, known, utc)
}
