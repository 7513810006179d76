// Thinning a full line of crumbs in place. A pass keeps the first crumb and, from each kept crumb,
// reaches on to the farthest one whose chord passes within the tolerance of every crumb between.
// Passes repeat at a doubled tolerance until a quarter of the room is free; the last one takes every
// other crumb. A pass writes where it reads, so what only reads is given the buffer and its length too, and not the line that they make.
#![tactic(auto)]

mod bounds;
mod rows;

ghost use Rattle.std.specs.Prelude.{◌≡◌, suc, ◌+◌, ◌<◌, ◌≤◌, length, drop};
ghost use Rattle.crumbs.specs.Crumb.{capacity, crumb_at, crumbs};
ghost use Rattle.thin.specs.Crumb.{reach};
ghost use Rattle.thin.specs.Questions.{question9};
ghost use Rattle.thin.specs.Promises.{ThinDone};
ghost use Rattle.thin.specs.Inner.{step_by, OneByOne, Passed};

use bounds::Bounds;
use refusal::Refusal;

// A kept crumb replaces at most this many before the next.
const SPAN: usize = 256;
// Passes that measure, before every other crumb goes.
const ROUNDS: usize = 17;

// The farthest crumb after `anchor`, at most `SPAN` on, whose chord from `anchor` passes within
// the tolerance of every crumb between. Those that are surely within it are passed over by fours.
// Counted by hand: the end at which it stops, for any of three reasons, is the answer.
fn reach(buf: &[f32], len: usize, anchor: usize, bounds: Bounds) -> usize
    requires { (anchor < len) × (len ≤ capacity (length buf.now)) }
    ensures { result ≡ anchor + reach bounds.tolerance (crumb_at buf.now anchor)
        (drop (suc anchor) (crumbs len buf.now)) }
{
    let a = crumbs::point_at(buf, anchor);
    let mut end = anchor + 2;
    'ends: while end < len && end - anchor <= SPAN {
        let b = crumbs::point_at(buf, end);
        let first = rows::near_from(buf, anchor + 1, end, a, b, bounds.lo);
        for j in first..end {
            let p = crumbs::point_at(buf, j);
            if bounds.strays(p, a, b) {
                break 'ends;
            }
        }
        end += 1;
    }
    end - 1
}

// Where a pass goes on from `anchor`. Whether it halves is a flag, as in the rules: an enum of two would be turned into it at each call,
// and a closure for the step would be chosen by it.
fn next(buf: &[f32], len: usize, anchor: usize, bounds: Bounds, halve: bool) -> usize
    requires { (anchor + 2 < len) × (len ≤ capacity (length buf.now)) }
    ensures { result ≡ anchor + step_by halve bounds.tolerance (crumb_at buf.now anchor)
        (drop (suc anchor) (crumbs len buf.now)) }
{
    if halve {
        return anchor + 2;
    }
    reach(buf, len, anchor, bounds)
}

// Where a pass begins to look for crumbs to drop: it goes on by one from each crumb before.
fn start(buf: &[f32], len: usize, bounds: Bounds, halve: bool) -> usize
    requires { (2 ≤ len) × (len ≤ capacity (length buf.now)) }
    ensures { OneByOne halve bounds.tolerance len buf.now result }
{
    if halve {
        return 0;
    }
    rows::far_from_start(buf, len, bounds.hi)
}

// One pass over the first `len` crumbs, compacted in place; returns how many are kept. Each kept
// crumb is written at or before where it was, and the reach reads only from the last kept crumb on. Each step goes as far as its reach.
fn pass(buf: &mut [f32], len: usize, tolerance: f32, halve: bool) -> usize
    requires { len ≤ capacity (length buf.old) }
    ensures { Passed halve tolerance len buf.old buf.new result }
{
    if len <= 2 {
        return len;
    }
    let bounds = Bounds::new(tolerance);
    let mut anchor = start(buf, len, bounds, halve);
    let mut kept = anchor + 1;
    while anchor + 1 < len - 1 {
        anchor = next(buf, len, anchor, bounds, halve);
        let c = crumbs::crumb_at(buf, anchor);
        crumbs::put(buf, kept, c);
        kept += 1;
    }
    if anchor == len - 1 {
        return kept;
    }
    let last = crumbs::crumb_at(buf, len - 1);
    crumbs::put(buf, kept, last);
    kept + 1
}

// How many crumbs are left, the tolerance of the last pass and how many passes were made.
#[derive(Clone, Copy)]
pub struct Thinned {
    pub len: usize,
    pub tolerance: f32,
    pub passes: usize,
}

// Document 01's question 9.
fn may_thin(size: usize, len: usize, tolerance: f32) -> bool
    ensures { result ≡ question9 size len tolerance }
{
    let capacity = crumbs::capacity(size);
    crumbs::whole(size)
        & (3 <= capacity)
        & (capacity <= crumbs::MOST)
        & (len <= capacity)
        & (0.0 <= tolerance)
}

// Thin the first `len` crumbs until at most three quarters of the room are in use, at `tolerance` and
// twice it as needed. No `for` over the passes: behind its end an answer would have to be made up, though the 18th is always the last.
pub fn thin(buf: &mut [f32], len: usize, tolerance: f32) -> Result<Thinned, Refusal>
    ensures { ThinDone len tolerance buf.old buf.new result }
{
    Refusal::Thinning.unless(may_thin(buf.len(), len, tolerance))?;
    let target = crumbs::capacity(buf.len()) * 3 / 4;
    let mut kept = len;
    let mut doubled = tolerance;
    let mut passes = 1;
    loop {
        kept = pass(buf, kept, doubled, ROUNDS < passes);
        if kept <= target {
            return Ok(Thinned {
                len: kept,
                tolerance: doubled,
                passes,
            });
        }
        passes += 1;
        doubled = doubled * 2.0;
    }
}
