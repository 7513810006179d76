// Several crumbs tested at a time, without a root and without a branch between them: those that surely stay within the
// tolerance, and those that surely stray.

ghost use Rattle.std.specs.Prelude.{◌≡◌, true, ◌+◌, ◌<◌, ◌≤◌, length};
ghost use Rattle.crumbs.specs.Crumb.{capacity};
ghost use Rattle.thin.specs.Rows.{near, far, Each};

use plane::{Point, squares};

// How many chords are tested at a time.
const ROW: usize = 16;

// Whether crumb `i` is off the segment a-b by a square of at most `lo`.
fn near(buf: &[f32], i: usize, a: Point, b: Point, lo: f32) -> bool
    requires { i < capacity (length buf.now) }
    ensures { result ≡ near buf.now a b lo i }
{
    squares::off_square(crumbs::point_at(buf, i), a, b) <= lo
}

// Whether each of the four crumbs from `first` on is off the segment a-b by a square of at most `lo`.
fn four_near(buf: &[f32], first: usize, a: Point, b: Point, lo: f32) -> bool
    requires { first + 4 ≤ capacity (length buf.now) }
    ensures { result ≡ true → Each (near buf.now a b lo) first (first + 4) }
{
    let one = near(buf, first, a, b, lo);
    let two = near(buf, first + 1, a, b, lo);
    let three = near(buf, first + 2, a, b, lo);
    let four = near(buf, first + 3, a, b, lo);
    one & two & three & four
}

// A crumb from `from` on, before which each is off the segment a-b by a square of at most `lo`: by fours, as far as they go before
// `end`.
pub(crate) fn near_from(buf: &[f32], from: usize, end: usize, a: Point, b: Point, lo: f32) -> usize
    requires { (from ≤ end) × (end ≤ capacity (length buf.now)) }
    ensures { (from ≤ result) × (result ≤ end) × Each (near buf.now a b lo) from result }
{
    let fours = (end - from) / 4;
    let passed = (0..fours)
        .position(|k| !four_near(buf, from + 4 * k, a, b, lo))
        .unwrap_or(fours);
    from + 4 * passed
}

// Whether the crumb after crumb `i` is off the chord over it by a square of at least `hi`.
fn far(buf: &[f32], i: usize, hi: f32) -> bool
    requires { i + 2 < capacity (length buf.now) }
    ensures { result ≡ far buf.now hi i }
{
    let a = crumbs::point_at(buf, i);
    let p = crumbs::point_at(buf, i + 1);
    let b = crumbs::point_at(buf, i + 2);
    hi <= squares::off_square(p, a, b)
}

// Whether `far` says yes of each of the sixteen crumbs from `first` on.
fn sixteen_far(buf: &[f32], first: usize, hi: f32) -> bool
    requires { first + 18 ≤ capacity (length buf.now) }
    ensures { result ≡ true → Each (far buf.now hi) first (first + 16) }
{
    let mut all = true;
    for k in 0..ROW {
        all = all & far(buf, first + k, hi);
    }
    all
}

// A crumb of the first `len`, before which `far` says yes of each: by sixteens, as far as they go.
pub(crate) fn far_from_start(buf: &[f32], len: usize, hi: f32) -> usize
    requires { (2 ≤ len) × (len ≤ capacity (length buf.now)) }
    ensures { (result + 2 ≤ len) × Each (far buf.now hi) 0 result }
{
    let rows = (len - 2) / ROW;
    let passed = (0..rows)
        .position(|k| !sixteen_far(buf, ROW * k, hi))
        .unwrap_or(rows);
    ROW * passed
}
