// Questions 2 and 3: whether a place lies on the globe.

ghost use Rattle.std.specs.Prelude.{◌≡◌};
ghost use Rattle.refusal.specs.Refusal.{asked};
ghost use Rattle.course.specs.Course.{fixes};
ghost use Rattle.calls.specs.Questions.{latitude_fits, longitude_fits, asks_fix, asks_fixes};

use plane::Fix;
use refusal::Refusal;

const LATITUDE_MOST: u32 = 900_000_000;

const LONGITUDE_MOST: u32 = 1_800_000_000;

#[tactic(auto, unfolding(calls::specs::Questions::latitude_fits))]
fn latitude_fits(lat: i32) -> bool
    ensures { result ≡ latitude_fits lat }
{
    lat.unsigned_abs() <= LATITUDE_MOST
}

#[tactic(auto, unfolding(calls::specs::Questions::longitude_fits))]
fn longitude_fits(lon: i32) -> bool
    ensures { result ≡ longitude_fits lon }
{
    lon.unsigned_abs() <= LONGITUDE_MOST
}

#[tactic(auto, unfolding(calls::specs::Questions::asks_fix))]
pub fn asks_fix(fix: Fix) -> Result<(), Refusal>
    ensures { asked result ≡ asks_fix fix }
{
    Refusal::Latitude.unless(latitude_fits(fix.lat))?;
    Refusal::Longitude.unless(longitude_fits(fix.lon))
}

// As many places as there are of both.
pub fn asks_fixes(lats: &[i32], lons: &[i32]) -> Result<(), Refusal>
    ensures { asked result ≡ asks_fixes (fixes lats.now lons.now) }
{
    for (&lat, &lon) in lats.iter().zip(lons) {
        asks_fix(Fix { lat, lon })?;
    }
    Ok(())
}
