// Whether a fix runs back over the breadcrumb.

ghost use Rattle.std.specs.Prelude.{◌≡◌, ◌≤◌, List, Float, length};
ghost use Rattle.trail.specs.View.{track};
ghost use Rattle.joining.specs.Retrace.{backwards, against_near, nearest_before, rides_back, len_before};
ghost use Rattle.segments.specs.Inner.{InLine};

use crumbs::Crumb;
use crumbs::held::Crumbs;
use plane::Point;
use search::{Range, rows};
use segments::costs::Nearest;
use segments::turns;
use trail::Trail;

// Riding back along the breadcrumb: this close to it, away from its newest `RETRACE_SKIP_M`.
const RETRACE_M: f32 = 20.0;

const RETRACE_SKIP_M: f32 = 300.0;

fn backwards(heading: u16, a: Crumb, b: Crumb) -> bool
    ensures { result ≡ backwards heading a b }
{
    let turn = turns::turned_from(heading, a, b);
    plane::TURN * 3 / 8 < turn && turn < plane::TURN * 5 / 8
}

// The breadcrumb's nearest segment to p among those up to the crumb `n`.
fn nearest_before(crumbs: &Crumbs, p: Point, n: usize) -> Option<Nearest>
    requires { n ≤ length crumbs.now }
    ensures { result ≡ nearest_before crumbs.now p n }
{
    if n < 2 {
        return None;
    }
    let ends = Range { from: 1, to: n - 1 };
    rows::nearest_on_breadcrumb(crumbs, p, ends)
}

// How long the breadcrumb was before the first fix back.
pub fn len_before(t: Trail) -> usize
    ensures { (w b : List Float) → result ≡ len_before (track t w b) }
{
    if t.retrace == 0 { t.len } else { t.retrace_len }
}

// Whether the nearest segment is close, and ridden against.
fn against_near(crumbs: &Crumbs, heading: u16, best: Option<Nearest>) -> bool
    requires { InLine (length crumbs.now) best }
    ensures { result ≡ against_near crumbs.now heading best }
{
    // No `is_some_and`: of a closure that captures a line, which holds a borrow, nothing is known, even with clauses of its own.
    let Some(near) = best else {
        return false;
    };
    near.off < RETRACE_M && backwards(heading, crumbs.crumb(near.end - 1), crumbs.crumb(near.end))
}

// Whether a fix with this heading runs back over the breadcrumb.
pub fn rides_back(crumbs: &Crumbs, p: Point, heading: Option<u16>) -> bool
    ensures { result ≡ rides_back heading crumbs.now p }
{
    // No `is_some_and` here either: its closure would capture the line too, and hold all that follows.
    let Some(known) = heading else {
        return false;
    };
    let Some(length) = crumbs.length_m() else {
        return false;
    };
    let n = search::ends(crumbs, length - RETRACE_SKIP_M);
    let best = nearest_before(crumbs, p, n);
    against_near(crumbs, known, best)
}
