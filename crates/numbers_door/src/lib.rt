// The numbers and the plane, for the comparison of single functions: each export does what the function of
// its name does.
#![tactic(auto)]

ghost use Rattle.std.specs.Prelude.{◌≡◌};
ghost use Rattle.std.specs.Float.{binary32};
ghost use Rattle.binary32.specs.Root.{root};
ghost use Rattle.binary32.specs.Casts.{as_u32};
ghost use Rattle.binary32.specs.Inner.{as_f32};
ghost use Rattle.binary32.specs.Limits.{clamp, max_zero};
ghost use Rattle.trig.specs.Fix.{cos, angle};
ghost use Rattle.plane.specs.Plane.{distance, project, off_segment, bearing, metres};
ghost use Rattle.plane.specs.Fix.{east_per_e7, frame};
ghost use Rattle.numbers_door.specs.Points.{point_of};

use plane::{Fix, Point};

fn point(east: f32, north: f32) -> Point
    ensures { result ≡ point_of east north }
{
    Point { east, north }
}

#[unsafe(no_mangle)]
pub extern "C" fn cittumay_sqrtf(x: f32) -> f32
    ensures { result ≡ root binary32 x }
{
    binary32::sqrtf(x)
}

#[unsafe(no_mangle)]
pub extern "C" fn cittumay_as_u32(x: f32) -> u32
    ensures { result ≡ as_u32 x }
{
    binary32::as_u32(x)
}

#[unsafe(no_mangle)]
pub extern "C" fn cittumay_as_f32(d: i64) -> f32
    ensures { result ≡ as_f32 d }
{
    binary32::as_f32(d)
}

#[unsafe(no_mangle)]
pub extern "C" fn cittumay_clamp(x: f32) -> f32
    ensures { result ≡ clamp x }
{
    binary32::clamp(x)
}

#[unsafe(no_mangle)]
pub extern "C" fn cittumay_max_zero(x: f32) -> f32
    ensures { result ≡ max_zero x }
{
    binary32::max_zero(x)
}

#[unsafe(no_mangle)]
pub extern "C" fn cittumay_cosf(r: f32) -> f32
    ensures { result ≡ cos r }
{
    trig::cosf(r)
}

#[unsafe(no_mangle)]
pub extern "C" fn cittumay_atan2f(east: f32, north: f32) -> f32
    ensures { result ≡ angle east north }
{
    trig::atan2f(east, north)
}

#[unsafe(no_mangle)]
pub extern "C" fn cittumay_distance(a_east: f32, a_north: f32, b_east: f32, b_north: f32) -> f32
    ensures { result ≡ distance (point_of a_east a_north) (point_of b_east b_north) }
{
    plane::distance(point(a_east, a_north), point(b_east, b_north))
}

// The share of the way from a to b; the point goes to east and north.
#[unsafe(no_mangle)]
pub extern "C" fn cittumay_project(
    p_east: f32,
    p_north: f32,
    a_east: f32,
    a_north: f32,
    b_east: f32,
    b_north: f32,
    east: &mut f32,
    north: &mut f32,
) -> f32
    ensures value { result ≡ (project (point_of p_east p_north) (point_of a_east a_north) (point_of b_east b_north)).t }
    ensures north_after { point_of east.new north.new
        ≡ (project (point_of p_east p_north) (point_of a_east a_north) (point_of b_east b_north)).point }
{
    let p = point(p_east, p_north);
    let found = plane::project(p, point(a_east, a_north), point(b_east, b_north));
    *east = found.point.east;
    *north = found.point.north;
    found.t
}

#[unsafe(no_mangle)]
pub extern "C" fn cittumay_off_segment(
    p_east: f32,
    p_north: f32,
    a_east: f32,
    a_north: f32,
    b_east: f32,
    b_north: f32,
) -> f32
    ensures { result ≡ off_segment (point_of p_east p_north) (point_of a_east a_north) (point_of b_east b_north) }
{
    let p = point(p_east, p_north);
    plane::off_segment(p, point(a_east, a_north), point(b_east, b_north))
}

#[unsafe(no_mangle)]
pub extern "C" fn cittumay_bearing(
    from_east: f32,
    from_north: f32,
    to_east: f32,
    to_north: f32,
) -> u16
    ensures { result ≡ bearing (point_of from_east from_north) (point_of to_east to_north) }
{
    plane::bearing(point(from_east, from_north), point(to_east, to_north))
}

#[unsafe(no_mangle)]
pub extern "C" fn cittumay_metres(value: f32) -> u32
    ensures { result ≡ metres value }
{
    plane::metres(value)
}

#[unsafe(no_mangle)]
pub extern "C" fn cittumay_east_per_e7(lat: i32) -> f32
    ensures { result ≡ east_per_e7 lat }
{
    plane::east_per_e7(lat)
}

#[unsafe(no_mangle)]
pub extern "C" fn cittumay_frame(
    lat0: i32,
    lon0: i32,
    east_per_e7: f32,
    lat: i32,
    lon: i32,
    east: &mut f32,
    north: &mut f32,
)
    ensures { point_of east.new north.new
        ≡ frame (record { lat = lat0; lon = lon0 }) east_per_e7 (record { lat = lat; lon = lon }) }
{
    let origin = Fix {
        lat: lat0,
        lon: lon0,
    };
    let place = plane::frame(origin, east_per_e7, Fix { lat, lon });
    *east = place.east;
    *north = place.north;
}
