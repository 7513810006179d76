// A crumb, and how crumbs lie in a lent buffer of numbers. No other crate knows how many numbers a crumb takes.
#![tactic(auto)]

pub mod along;
pub mod bounds;
pub mod held;

ghost use Rattle.std.specs.Prelude.{◌≡◌, ◌<◌, length};
ghost use Rattle.crumbs.specs.Crumb.{whole, capacity, crumb_at, point};
ghost use Rattle.crumbs.specs.Inner.{put_at, Front};

use plane::Point;

// How many numbers of a buffer a crumb takes.
pub const STRIDE: usize = 3;

// The most crumbs that a buffer may have room for.
pub const MOST: usize = 4096;

// A place in metres, and how far along the line it lies.
#[derive(Clone, Copy)]
pub struct Crumb {
    pub east: f32,
    pub north: f32,
    pub along: f32,
}

// Where a crumb lies.
impl From<Crumb> for Point {
    ghost from_gives = { λ c p. p ≡ point c };

    fn from(c: Crumb) -> Point
        ensures { result ≡ point c }
    {
        Point {
            east: c.east,
            north: c.north,
        }
    }
}

// Whether a buffer of `size` numbers is a whole number of crumbs long.
pub fn whole(size: usize) -> bool
    ensures { result ≡ whole size }
{
    size % STRIDE == 0
}

// How many crumbs a buffer of `size` numbers has room for.
pub fn capacity(size: usize) -> usize
    ensures { result ≡ capacity size }
{
    size / STRIDE
}

// The crumb at place `i` of the buffer.
pub fn crumb_at(buf: &[f32], i: usize) -> Crumb
    requires { i < capacity (length buf.now) }
    ensures { result ≡ crumb_at buf.now i }
{
    let at = STRIDE * i;
    Crumb {
        east: buf[at],
        north: buf[at + 1],
        along: buf[at + 2],
    }
}

// Where the crumb at place `i` of the buffer lies.
pub fn point_at(buf: &[f32], i: usize) -> Point
    requires { i < capacity (length buf.now) }
    ensures { result ≡ point (crumb_at buf.now i) }
{
    Point::from(crumb_at(buf, i))
}

// Write a crumb to place `i` of the buffer.
pub fn put(buf: &mut [f32], i: usize, c: Crumb)
    requires { i < capacity (length buf.old) }
    ensures { buf.new ≡ put_at buf.old i c }
{
    let at = STRIDE * i;
    buf[at] = c.east;
    buf[at + 1] = c.north;
    buf[at + 2] = c.along;
}

// The numbers of the first `len` crumbs, or none where the buffer has no room for so many.
pub fn front(buf: &[f32], len: usize) -> &[f32]
    ensures { Front len buf.now result.now }
{
    if capacity(buf.len()) < len {
        return &buf[..0];
    }
    &buf[..STRIDE * len]
}
