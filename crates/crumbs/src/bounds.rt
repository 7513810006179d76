// Crumbs from the front of a buffer none of whose numbers is out of bounds. A row of sixteen is looked at number by number, with
// no branch in it: so it is given the buffer, and not the line that its numbers make.

ghost use Rattle.std.specs.Prelude.{◌≡◌, true, ◌+◌, ◌≤◌, length};
ghost use Rattle.crumbs.specs.Crumb.{capacity};
ghost use Rattle.crumbs.specs.Bounds.{row_length, RowOf, RowBetween, Leading};

use crate::Crumb;

// The crumbs of a row.
const ROW: usize = 16;

// The numbers of a row.
const NUMBERS: usize = crate::STRIDE * ROW;

// A row of crumbs that are all `c`.
fn row_of(c: Crumb) -> [f32; NUMBERS]
    ensures { RowOf c result }
{
    let mut row = [0.0; NUMBERS];
    for i in 0..ROW {
        crate::put(&mut row, i, c);
    }
    row
}

// Whether no number of the row from the crumb at place `i` on is below the one that stands there in `least`, or above that in `most`.
fn row_between(buf: &[f32], i: usize, least: &[f32; NUMBERS], most: &[f32; NUMBERS]) -> bool
    requires { i + row_length ≤ capacity (length buf.now) }
    ensures { result ≡ true → RowBetween least.now most.now buf.now i }
{
    let at = crate::STRIDE * i;
    let mut ok = true;
    // By `k`: two `zip`s would hold a number and its bounds as a pair in a pair, and be no shorter.
    for k in 0..NUMBERS {
        let x = buf[at + k];
        ok = ok & (least[k] <= x) & (x <= most[k]);
    }
    ok
}

// How many of the first `len` crumbs, by rows, have no number below that of `least` or above that of `most`.
pub fn leading(buf: &[f32], len: usize, least: Crumb, most: Crumb) -> usize
    requires { len ≤ capacity (length buf.now) }
    ensures { Leading least most len buf.now result }
{
    let low = row_of(least);
    let high = row_of(most);
    let rows = len / ROW;
    let passed = (0..rows)
        .position(|k| !row_between(buf, ROW * k, &low, &high))
        .unwrap_or(rows);
    ROW * passed
}
