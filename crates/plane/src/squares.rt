// Squares of distances. Where the square is large enough so is the root, and none need be taken.

ghost use Rattle.std.specs.Prelude.{◌≡◌};
ghost use Rattle.plane.specs.Square.{square, off_square};

use crate::Point;

// The square of the distance from `a` to `b`.
pub fn square(a: Point, b: Point) -> f32
    ensures { result ≡ square a b }
{
    let east = b.east - a.east;
    let north = b.north - a.north;
    east * east + north * north
}

// The square of how far `p` lies from the segment a-b.
pub fn off_square(p: Point, a: Point, b: Point) -> f32
    ensures { result ≡ off_square p a b }
{
    square(p, crate::project(p, a, b).point)
}
