// Turns between two bearings, and whether a course runs the rider's way or against it.

ghost use Rattle.std.specs.Prelude.{◌≡◌, ◌<◌};
ghost use Rattle.plane.specs.Plane.{turn};
ghost use Rattle.segments.specs.Turn.{turned, turned_from, against, same_way};

use crumbs::Crumb;
use plane::{Point, TURN};

// The turn from the bearing `way` to the bearing `heading`, clockwise.
pub fn turned(heading: u16, way: u16) -> u16
    requires { way < turn }
    ensures { result ≡ turned heading way }
{
    ((heading as u32 + TURN as u32 - way as u32) % (TURN as u32)) as u16
}

// The turn to `heading` from the way that leads from one crumb to another.
pub fn turned_from(heading: u16, from: Crumb, to: Crumb) -> u16
    ensures { result ≡ turned_from heading from to }
{
    turned(heading, plane::bearing(Point::from(from), Point::from(to)))
}

// Whether the course from `b` to `a` runs against the rider's heading.
pub fn against(heading: Option<u16>, a: Crumb, b: Crumb) -> bool
    ensures { result ≡ against heading a b }
{
    heading.is_some_and(|known| {
        let turn = turned_from(known, b, a);
        TURN / 4 <= turn && turn <= TURN * 3 / 4
    })
}

// Whether the course from `b` to `a` runs the rider's way, within an eighth of a turn.
pub fn same_way(heading: u16, a: Crumb, b: Crumb) -> bool
    ensures { result ≡ same_way heading a b }
{
    let turn = turned_from(heading, b, a);
    turn < TURN / 8 || TURN * 7 / 8 < turn
}
