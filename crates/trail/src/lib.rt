// The recording of the breadcrumb. Fixes wait in a window, and the last of them is kept before one
// that would make a straight line from the last kept crumb stray too far. When the lent buffer is
// full the line is thinned in place, so a ride of any length fits.
#![tactic(auto)]

ghost use Rattle.std.specs.Prelude.{◌≡◌, List, ◌<◌, ◌≤◌, length, Float};
ghost use Rattle.crumbs.specs.Crumb.{capacity};
ghost use Rattle.crumbs.specs.Choice.{last};
ghost use Rattle.trail.specs.Trail.{window_places, strays, thin, put, keep, flush, wait, simplify, add, reset_track};
ghost use Rattle.trail.specs.View.{waiting_at, places, TrailFit};
ghost use Rattle.trail.specs.Inner.{Emptied, TrailChanges, TrailFollows, Records};

use crumbs::held::Crumbs;
use crumbs::{Crumb, along};
use plane::Point;

// Fixes closer than this to the last one add nothing to the breadcrumb.
pub const MIN_STEP_M: f32 = 5.0;
// A kept crumb may sit this far off the straight line it replaces; doubled when a thinning pass frees
// too little.
pub const TOLERANCE_M: f32 = 6.0;
// The most places that wait.
pub const WINDOW: usize = 48;
// The numbers of the window: two for each place.
pub const NUMBERS: usize = 2 * WINDOW;
// So many fixes in a row back along the breadcrumb follow it.
pub const RETRACE_FIXES: u8 = 8;

// The breadcrumb's counts. The window stands beside them, since they are handed on by value where only they are asked; and so does the
// buffer that holds the crumbs, which is lent. The window has the places since the last kept crumb, oldest first: place i at 2i and
// 2i + 1. It is an array of numbers, copied in one piece from those that C lends, and back.
#[derive(Clone, Copy)]
pub struct Trail {
    // Crumbs held.
    pub len: usize,
    pub tolerance: f32,
    // Places that wait.
    pub window_len: usize,
    // Fixes in a row riding back along the breadcrumb, and its length before the first of them.
    pub retrace: u8,
    pub retrace_len: usize,
}

const EMPTY: Trail = Trail {
    len: 0,
    tolerance: TOLERANCE_M,
    window_len: 0,
    retrace: 0,
    retrace_len: 0,
};

// The place `i` of the window.
pub fn waiting(window: &[f32; NUMBERS], i: usize) -> Point
    requires { i < window_places }
    ensures { result ≡ waiting_at window.now i }
{
    let at = 2 * i;
    Point {
        east: window[at],
        north: window[at + 1],
    }
}

// What may thin the line says whether it did.
impl Trail {
    // A breadcrumb with nothing held and nothing waiting.
    pub fn new() -> Trail
        ensures { Emptied result }
    {
        EMPTY
    }

    // Forget the breadcrumb.
    pub fn reset(&mut self)
        ensures { (w : List Float) → TrailChanges reset_track self.old w self.new w }
    {
        *self = Trail {
            retrace_len: self.retrace_len,
            ..EMPTY
        };
    }

    // The last place that waits.
    fn last(&self, window: &[f32; NUMBERS]) -> Option<Point>
        requires { self.now.window_len ≤ window_places }
        ensures { result ≡ last (places self.now.window_len window.now) }
    {
        if self.window_len == 0 {
            return None;
        }
        Some(waiting(window, self.window_len - 1))
    }

    // `p` waits behind the others.
    fn wait(&mut self, window: &mut [f32; NUMBERS], p: Point)
        requires { self.old.window_len < window_places }
        ensures { TrailChanges (wait p) self.old window.old self.new window.new }
    {
        let at = 2 * self.window_len;
        window[at] = p.east;
        window[at + 1] = p.north;
        self.window_len += 1;
    }

    // Whether a straight line from `anchor` to `p` would leave a waiting place too far off.
    fn strays(&self, window: &[f32; NUMBERS], anchor: Point, p: Point) -> bool
        requires { self.now.window_len ≤ window_places }
        ensures { result ≡ strays self.now.tolerance anchor p (places self.now.window_len window.now) }
    {
        for i in 0..self.window_len {
            let w = waiting(window, i);
            if plane::off_segment(w, anchor, p) > self.tolerance {
                return true;
            }
        }
        false
    }

    // Thin the full breadcrumb in place until a quarter of it is free. The crumbs that a turn-round would
    // go back to may be gone, so one that is under way is forgotten.
    fn thin(&mut self, crumbs: &mut [f32])
        requires { TrailFit self.old (length crumbs.old) }
        ensures { (w : List Float) → TrailFollows thin self.old w crumbs.old self.new w crumbs.new }
    {
        let Ok(left) = thin::thin(crumbs, self.len, self.tolerance) else {
            return;
        };
        along::realong(crumbs, left.len);
        self.len = left.len;
        self.tolerance = left.tolerance;
        self.retrace = 0;
    }

    // A crumb at `p` behind those held.
    fn put(&mut self, crumbs: &mut [f32], p: Point)
        requires { (TrailFit self.old (length crumbs.old)) × (self.old.len < capacity (length crumbs.old)) }
        ensures { (w : List Float) → TrailFollows (λ C. put p) self.old w crumbs.old self.new w crumbs.new }
    {
        let c = Crumb {
            east: p.east,
            north: p.north,
            along: Crumbs::new(crumbs, self.len).recorded_m(p),
        };
        crumbs::put(crumbs, self.len, c);
        self.len += 1;
    }

    // Keep a crumb at `p`. Where there is no room left, the line is thinned first.
    pub fn keep(&mut self, crumbs: &mut [f32], p: Point) -> bool
        requires { TrailFit self.old (length crumbs.old) }
        ensures { (w : List Float)
            → Records (λ C. keep C p) self.old w crumbs.old (record { trail = self.new; thinned = result }) w crumbs.new }
    {
        if self.len == crumbs::capacity(crumbs.len()) {
            self.thin(crumbs);
            self.put(crumbs, p);
            true
        } else {
            self.put(crumbs, p);
            false
        }
    }

    // Keep the last place that waits, if one does, and empty the window.
    pub fn flush(&mut self, window: &[f32; NUMBERS], crumbs: &mut [f32]) -> bool
        requires { TrailFit self.old (length crumbs.old) }
        ensures { Records flush self.old window.now crumbs.old
            (record { trail = self.new; thinned = result }) window.now crumbs.new }
    {
        let Some(p) = self.last(window) else {
            return false;
        };
        let thinned = self.keep(crumbs, p);
        self.window_len = 0;
        thinned
    }

    // `p` waits. Where a place before it strays, or the window is full, the last that waits is kept first.
    fn simplify(
        &mut self,
        window: &mut [f32; NUMBERS],
        crumbs: &mut [f32],
        anchor: Point,
        p: Point,
    ) -> bool
        requires { TrailFit self.old (length crumbs.old) }
        ensures { Records (λ C. simplify C anchor p) self.old window.old crumbs.old
            (record { trail = self.new; thinned = result }) window.new crumbs.new }
    {
        if self.strays(window, anchor, p) || self.window_len == WINDOW {
            let thinned = self.flush(window, crumbs);
            self.wait(window, p);
            return thinned;
        }
        self.wait(window, p);
        false
    }

    // The window simplification: keep the last fix before one that would make a straight line from the
    // last kept crumb stray too far.
    pub fn add(&mut self, window: &mut [f32; NUMBERS], crumbs: &mut [f32], p: Point) -> bool
        requires { TrailFit self.old (length crumbs.old) }
        ensures { Records (λ C. add C p) self.old window.old crumbs.old
            (record { trail = self.new; thinned = result }) window.new crumbs.new }
    {
        if self.len == 0 {
            return self.keep(crumbs, p);
        }
        let anchor = Crumbs::new(crumbs, self.len).end();
        let before = self.last(window).unwrap_or(anchor);
        if plane::distance(before, p) < MIN_STEP_M {
            return false;
        }
        self.simplify(window, crumbs, anchor, p)
    }
}
