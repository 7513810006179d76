// How far along the line of crumbs in a buffer each of them lies.

ghost use Rattle.std.specs.Prelude.{◌≡◌, ◌≤◌, length};
ghost use Rattle.crumbs.specs.Crumb.{capacity};
ghost use Rattle.crumbs.specs.Along.{along_to};
ghost use Rattle.crumbs.specs.Inner.{Realongs};

use crate::Crumb;
use plane::Point;

// How far along the line `p` lies, which comes next after the crumb `a`.
pub(crate) fn along_to(a: Crumb, p: Point) -> f32
    ensures { result ≡ along_to a p }
{
    a.along + plane::distance(Point::from(a), p)
}

// Distances along follow the thinned line.
pub fn realong(crumbs: &mut [f32], len: usize)
    requires { len ≤ capacity (length crumbs.old) }
    ensures { Realongs len crumbs.old crumbs.new }
{
    for i in 1..len {
        let a = crate::crumb_at(crumbs, i - 1);
        let p = crate::point_at(crumbs, i);
        let c = Crumb {
            east: p.east,
            north: p.north,
            along: along_to(a, p),
        };
        crate::put(crumbs, i, c);
    }
}
