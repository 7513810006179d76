// What the questions put to a call ask of the buffers, of what they hold, and of the counts. A count is
// tested before anything is read by it, and the numbers behind what is held are never read.

ghost use Rattle.std.specs.Prelude.{◌≡◌, ◌&&◌, ◌≤◌, leb, length};
ghost use Rattle.crumbs.specs.Crumb.{capacity, crumbs as held_crumbs};
ghost use Rattle.trail.specs.Trail.{window_places};
ghost use Rattle.trail.specs.View.{places};
ghost use Rattle.calls.specs.Questions.{question1, places_fit, crumbs_fit, segment_fits, follow_fits, question4};
ghost use Rattle.questions.specs.Counted.{turned};

use crate::limits;
use state::Line;
use trail::Trail;

// The least crumbs that a crumb buffer may have room for.
const LEAST: usize = 8;

// ---- 1 and 4: the buffers

pub fn question1(size: usize) -> bool
    ensures { result ≡ question1 size }
{
    let room = crumbs::capacity(size);
    crumbs::whole(size) & (LEAST <= room) & (room <= crumbs::MOST)
}

pub fn question4(size: usize, n: usize) -> bool
    ensures { result ≡ question4 size n }
{
    let room = crumbs::capacity(size);
    crumbs::whole(size) & (room <= course::POINTS) & (n <= room)
}

// ---- 10: what is held. Every one is looked at, so that the loops have no branch.

pub fn window_fits(window: &[f32; trail::NUMBERS], window_len: usize) -> bool
    requires { window_len ≤ window_places }
    ensures { result ≡ places_fit (places window_len window.now) }
{
    let mut ok = true;
    for i in 0..window_len {
        ok &= limits::place_fits(trail::waiting(window, i));
    }
    ok
}

// Those in front that surely fit are passed by; the rest are asked one by one.
fn crumbs_fit(buf: &[f32], len: usize) -> bool
    requires { len ≤ capacity (length buf.now) }
    ensures { result ≡ crumbs_fit (held_crumbs len buf.now) }
{
    let first = crumbs::bounds::leading(buf, len, limits::least(), limits::most());
    let mut ok = true;
    for i in first..len {
        ok &= limits::crumb_fits(crumbs::crumb_at(buf, i));
    }
    ok
}

// Whether the buffer has room for `len` crumbs, and each of these fits.
pub fn held_fits(buf: &[f32], len: usize) -> bool
    ensures { result ≡ (leb len (capacity (length buf.now)) && crumbs_fit (held_crumbs len buf.now)) }
{
    if len <= crumbs::capacity(buf.len()) {
        return crumbs_fit(buf, len);
    }
    false
}

// ---- 10: the counts

fn segment_fits(segment: usize, len: usize) -> bool
    ensures { result ≡ segment_fits segment len }
{
    (1 <= segment) & (segment < len)
}

pub fn follow_fits(on: Line, segment: usize, len: usize, line_len: usize) -> bool
    ensures { result ≡ follow_fits on segment len line_len }
{
    match on {
        Line::Nothing => true,
        Line::Breadcrumb => segment_fits(segment, len),
        Line::Course => segment_fits(segment, line_len),
    }
}

pub fn retrace_fits(t: Trail) -> bool
    ensures { result ≡ turned t }
{
    (t.retrace < trail::RETRACE_FIXES) & ((t.retrace == 0) | (t.retrace_len <= t.len))
}
