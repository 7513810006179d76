// A short ride, written down as latitudes and longitudes in 1e-7 degree: for each fix its place in
// metres east and north of the first, as two f32 patterns, then the bearing and the whole metres
// from the fix before it. The ride crosses the antimeridian, stands on the pole, and ends half a
// turn away.
#![tactic(auto)]

use plane::Fix;
use std::io;

const RIDE: [(i32, i32); 12] = [
    (594370000, 1799998000),
    (594370900, 1799998000),
    (594372000, 1799999900),
    (594371100, -1799999100),
    (594365000, -1799990000),
    (594370000, 1799998000),
    (899999990, 1799998000),
    (900000000, 0),
    (0, -1),
    (-10, 1),
    (-594370000, -2000),
    (594370000, -1800000000),
];

fn main(rt: HostRuntime) -> io::Result<()> {
    let origin = Fix {
        lat: 594370000,
        lon: 1799998000,
    };
    let east_per_e7 = plane::east_per_e7(origin.lat);
    let mut before = plane::frame(origin, east_per_e7, origin);
    for (lat, lon) in RIDE {
        let here = plane::frame(origin, east_per_e7, Fix { lat, lon });
        let east = binary32::pattern(here.east);
        let north = binary32::pattern(here.north);
        let bearing = plane::bearing(before, here);
        let metres = plane::metres(plane::distance(before, here));
        println!(rt; "{east:08x} {north:08x} bearing {bearing} metres {metres}")?;
        before = here;
    }
    Ok(())
}
