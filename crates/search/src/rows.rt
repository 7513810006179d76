// The nearest segment of the breadcrumb by rows of sixteen: the least square of each row is worked out in loops without a branch, and
// only the row that has the least of all is looked at segment by segment.

ghost use Rattle.std.specs.Prelude.{◌≡◌, true, ℕ, ◌+◌, ◌-◌, ◌≤◌, ◌<◌, min, length};
ghost use Rattle.search.specs.declared.Range.{Range};
ghost use Rattle.search.specs.Search.{nearest_on_breadcrumb};
ghost use Rattle.search.specs.Rows.{row_length, lesser, SquaresFrom, LeastSoFar, InFront, Behind, Settled};

use crate::{Range, quick};
use crumbs::held::Crumbs;
use plane::Point;
use segments::costs::Nearest;

// The segments of a row.
pub const ROW: usize = 16;

// The row in front, or the segment: where it begins, what no square tried so far is less than, and what none before it is less than.
#[derive(Clone, Copy)]
struct Front {
    first: usize,
    least: f32,
    before: f32,
}

// The squares of how far `p` is off the segments of a row, from segment `first` of the line on.
fn squares_from(line: &Crumbs, p: Point, first: usize) -> [f32; ROW]
    requires { (1 ≤ first) × (first + row_length ≤ length line.now) }
    ensures { SquaresFrom line.now p first result }
{
    // That the length fits a usize bounds the sum below.
    let _ = line.len();
    let mut row = [0.0; ROW];
    // By `k`: a closure for `from_fn` would capture the line, and promises nothing then.
    for k in 0..ROW {
        row[k] = segments::square_on(line, p, first + k);
    }
    row
}

// `x` where it is less than `bar`, else that. `f32::min` leaves open which of two zeros it gives.
fn lesser(x: f32, bar: f32) -> f32
    ensures { result ≡ lesser x bar }
{
    if x < bar {
        return x;
    }
    bar
}

// The least of `bar` and the numbers of a row. What is not a number counts for nothing.
fn least_of(row: &[f32; ROW], bar: f32) -> f32
    ensures { LeastSoFar bar row.now row_length result }
{
    let mut least = bar;
    for x in row {
        least = lesser(*x, least);
    }
    least
}

// The row from `first` on is tried: it is in front where one of its squares is less than all before it.
fn pass_row(line: &Crumbs, p: Point, first: usize, front: Front) -> Front
    requires { (1 ≤ first) × (first + row_length ≤ length line.now) }
    ensures { (ends : Range) (end : ℕ) → ends.from ≤ first → first ≤ end → first + row_length ≤ ends.to + 1
        → InFront line.now p ends row_length end front
        → InFront line.now p ends row_length (first + row_length) result }
{
    let row = squares_from(line, p, first);
    let least = least_of(&row, front.least);
    if least < front.least {
        return Front {
            first,
            least,
            before: front.least,
        };
    }
    Front {
        first: front.first,
        least,
        before: front.before,
    }
}

// Where the row begins that tries segment `end` next: the last one of a range ends with it, and may begin before `end`.
fn row_at(end: usize, to: usize) -> usize
    requires { row_length ≤ to + 1 }
    ensures { result ≡ min end (to + 1 - row_length) }
{
    end.min(to - (ROW - 1))
}

// The row in front of all rows of a range.
fn front_row(line: &Crumbs, p: Point, ends: Range) -> Front
    requires le_from { (1 ≤ ends.from) × (ends.to < length line.now) }
    requires row_length_bound { ends.from + row_length ≤ ends.to + 1 }
    ensures { InFront line.now p ends row_length (ends.to + 1) result }
{
    // That the length fits a usize bounds the sum below.
    let _ = line.len();
    let mut front = Front {
        first: ends.from,
        least: f32::MAX,
        before: f32::MAX,
    };
    let mut end = ends.from;
    // By `while`: the last row begins before `end`, so that no fixed step leads from row to row.
    while end <= ends.to {
        let first = row_at(end, ends.to);
        front = pass_row(line, p, first, front);
        end = first + ROW;
    }
    front
}

// The first segment of the row in front that has its least square; the last one where none has.
fn front_segment(line: &Crumbs, p: Point, front: Front) -> Front
    requires { (1 ≤ front.first) × (front.first + row_length ≤ length line.now) }
    ensures { (ends : Range) → InFront line.now p ends row_length (ends.to + 1) front
        → InFront line.now p ends 1 (ends.to + 1) result }
{
    // That the length fits a usize bounds the sum below.
    let _ = line.len();
    let row = squares_from(line, p, front.first);
    let mut before = front.before;
    let mut k = 0;
    // By `while`: `position` would find `k`, and a second loop up to it would be needed for `before`.
    while k < ROW - 1 && !(row[k] <= front.least) {
        before = lesser(row[k], before);
        k += 1;
    }
    Front {
        first: front.first + k,
        least: front.least,
        before,
    }
}

// Whether the segments of a range before the one in front are certainly farther off than `off`. The first of them has to be, lest it be
// no number away: it would stay the nearest then.
fn all_behind(line: &Crumbs, p: Point, from: usize, front: Front, off: f32) -> bool
    requires { (1 ≤ from) × (from < length line.now) }
    ensures { result ≡ true → Behind line.now p from front off }
{
    if front.first == from {
        return true;
    }
    let a = line.crumb(from - 1);
    let b = line.crumb(from);
    if !quick::reaches(a, b, crate::anywhere()) {
        return false;
    }
    let first = segments::nearest_on(line, p, from);
    (off < first.off) & (off < binary32::sqrtf(front.before))
}

// Whether the segment in front, which lies `off` metres away, is certainly the nearest of the range.
fn is_nearest(line: &Crumbs, p: Point, from: usize, front: Front, off: f32) -> bool
    requires { (1 ≤ from) × (from ≤ front.first) × (front.first < length line.now) }
    ensures { result ≡ true → Settled line.now p from front off }
{
    let end = front.first;
    let a = line.crumb(end - 1);
    let b = line.crumb(end);
    if !quick::reaches(a, b, crate::anywhere()) {
        return false;
    }
    if off <= binary32::sqrtf(front.least) {
        return all_behind(line, p, from, front, off);
    }
    false
}

// The nearest segment of the breadcrumb; on a tie the one nearer home.
pub fn nearest_on_breadcrumb(line: &Crumbs, p: Point, ends: Range) -> Option<Nearest>
    requires { (1 ≤ ends.from) × (ends.to < length line.now) }
    ensures { result ≡ nearest_on_breadcrumb line.now p ends }
{
    if ends.from <= ends.to && ROW <= ends.to - ends.from {
        let row = front_row(line, p, ends);
        let front = front_segment(line, p, row);
        let near = segments::nearest_on(line, p, front.first);
        if is_nearest(line, p, ends.from, front, near.off) {
            return Some(near);
        }
    }
    quick::nearest_on_breadcrumb(line, p, ends)
}
