// The crumbs held in a lent buffer: the line that they make, its ends, and how long it is.

ghost use Rattle.std.specs.Prelude.{◌≡◌, ◌<◌, ◌≤◌, length, option_map};
ghost use Rattle.crumbs.specs.Crumb.{capacity, point, crumbs};
ghost use Rattle.crumbs.specs.Line.{at};
ghost use Rattle.crumbs.specs.Choice.{first, last};
ghost use Rattle.crumbs.specs.Along.{start_of, recorded_m};
ghost use Rattle.crumbs.specs.Length.{length_m};

use crate::{Crumb, along};
use plane::Point;
use std::marker::Model;

// The first `len` crumbs of a buffer. A clause sees their list.
#[derive(Drop)]
pub struct Crumbs<'a> {
    buf: &'a [f32],
    len: usize,
}

impl<'a> Model for Crumbs<'a> {
    ghost use Rattle.std.specs.Prelude.{List, ◌≤◌, length};
    ghost use Rattle.crumbs.specs.declared.Crumb.{Crumb};
    ghost use Rattle.crumbs.specs.Crumb.{capacity, crumbs};

    ghost Value = { List Crumb };

    ghost view = { λ s. crumbs s.len s.buf.now };

    ghost invariant = { λ s. s.len ≤ capacity (length s.buf.now) };
}

impl<'a> Crumbs<'a> {
    pub fn new(buf: &'a [f32], len: usize) -> Crumbs<'a>
        requires { len ≤ capacity (length buf.now) }
        ensures { result ≡ crumbs len buf.now }
    {
        Crumbs { buf, len }
    }

    pub fn len(&self) -> usize
        ensures { result ≡ length self.now }
    {
        self.len
    }

    // The crumb at place `i`.
    pub fn crumb(&self, i: usize) -> Crumb
        requires { i < length self.now }
        ensures { result ≡ at self.now i }
    {
        crate::crumb_at(self.buf, i)
    }

    pub fn first(&self) -> Option<Crumb>
        ensures { result ≡ first self.now }
    {
        if self.len() == 0 {
            return None;
        }
        Some(self.crumb(0))
    }

    pub fn last(&self) -> Option<Crumb>
        ensures { result ≡ last self.now }
    {
        let len = self.len();
        if len == 0 {
            return None;
        }
        Some(self.crumb(len - 1))
    }

    // How far along the last crumb lies, where the line has a segment.
    pub fn length_m(&self) -> Option<f32>
        ensures { result ≡ length_m self.now }
    {
        let len = self.len();
        if len < 2 {
            return None;
        }
        Some(self.crumb(len - 1).along)
    }

    // Where the line ends: at its last crumb.
    pub fn end(&self) -> Point
        requires { 0 < length self.now }
        ensures { Some result ≡ option_map point (last self.now) }
    {
        Point::from(self.crumb(self.len() - 1))
    }

    // Where the ride began: at its first crumb, or `p` where none is held.
    pub fn start(&self, p: Point) -> Point
        ensures { result ≡ start_of self.now p }
    {
        self.first().map_or(p, Point::from)
    }

    // How long the line is from the start to `p`.
    pub fn recorded_m(&self, p: Point) -> f32
        ensures { result ≡ recorded_m self.now p }
    {
        self.last().map_or(0.0, |a| along::along_to(a, p))
    }
}
