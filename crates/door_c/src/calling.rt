// The calls that change the guide.

ghost use Rattle.course.specs.Course.{fixes};
ghost use Rattle.door.specs.Calls.{New, Reset, EndReplay, SetCourse, SetAutoFollow, Observe, Replay, SetFollowing};

use door::calling;

// A new guide, with a breadcrumb in `crumbs`.
#[unsafe(no_mangle)]
pub extern "C" fn cittumay_new(words: &mut [u64], numbers: &mut [f32], crumbs: &[f32]) -> u8
    ensures { New crumbs.now words.old numbers.old result words.new numbers.new }
{
    calling::cittumay_new(words, numbers, crumbs)
}

// Forget the breadcrumb: a new ride starts where its first fix is.
#[unsafe(no_mangle)]
pub extern "C" fn cittumay_reset(words: &mut [u64], numbers: &mut [f32]) -> u8
    ensures { Reset words.old numbers.old result words.new numbers.new }
{
    calling::cittumay_reset(words, numbers)
}

// Live fixes follow the replayed ones.
#[unsafe(no_mangle)]
pub extern "C" fn cittumay_end_replay(words: &mut [u64], numbers: &mut [f32]) -> u8
    ensures { EndReplay words.old numbers.old result words.new numbers.new }
{
    calling::cittumay_end_replay(words, numbers)
}

// The course to follow, start first, as latitudes and longitudes side by side.
#[unsafe(no_mangle)]
pub extern "C" fn cittumay_set_course(
    words: &mut [u64],
    numbers: &mut [f32],
    line: &mut [f32],
    lats: &[i32],
    lons: &[i32],
) -> u8
    ensures { SetCourse (fixes lats.now lons.now) line.old line.new words.old
        numbers.old result words.new numbers.new }
{
    calling::cittumay_set_course(words, numbers, line, lats, lons)
}

// The ride's position. What it changed is written to `event`.
#[unsafe(no_mangle)]
pub extern "C" fn cittumay_observe(
    words: &mut [u64],
    numbers: &mut [f32],
    crumbs: &mut [f32],
    line: &[f32],
    lat: i32,
    lon: i32,
    now_ms: u64,
    event: &mut u8,
) -> u8
    ensures { Observe line.now (Some (record { lat = lat; lon = lon })) now_ms crumbs.old event.old
        crumbs.new event.new words.old numbers.old result words.new numbers.new }
{
    calling::cittumay_observe(words, numbers, crumbs, line, lat, lon, now_ms, event)
}

// No position is known.
#[unsafe(no_mangle)]
pub extern "C" fn cittumay_observe_missing(
    words: &mut [u64],
    numbers: &mut [f32],
    crumbs: &mut [f32],
    line: &[f32],
    now_ms: u64,
    event: &mut u8,
) -> u8
    ensures { Observe line.now None now_ms crumbs.old event.old crumbs.new
        event.new words.old numbers.old result words.new numbers.new }
{
    calling::cittumay_observe_missing(words, numbers, crumbs, line, now_ms, event)
}

// A fix from before a restart, `at_ms` into the replay.
#[unsafe(no_mangle)]
pub extern "C" fn cittumay_replay(
    words: &mut [u64],
    numbers: &mut [f32],
    crumbs: &mut [f32],
    lat: i32,
    lon: i32,
    at_ms: u64,
) -> u8
    ensures { Replay (record { lat = lat; lon = lon }) at_ms crumbs.old crumbs.new words.old
        numbers.old result words.new numbers.new }
{
    calling::cittumay_replay(words, numbers, crumbs, lat, lon, at_ms)
}

// Whether riding back over the breadcrumb, or along the course, starts following it.
#[unsafe(no_mangle)]
pub extern "C" fn cittumay_set_auto_follow(
    words: &mut [u64],
    numbers: &mut [f32],
    crumbs: &mut [f32],
    on: u8,
) -> u8
    ensures { SetAutoFollow on crumbs.old crumbs.new words.old numbers.old result
        words.new numbers.new }
{
    calling::cittumay_set_auto_follow(words, numbers, crumbs, on)
}

// Follow the course while it is near, else the breadcrumb back; or stop following. `done` becomes 0 where no
// way back was found, else 1.
#[unsafe(no_mangle)]
pub extern "C" fn cittumay_set_following(
    words: &mut [u64],
    numbers: &mut [f32],
    crumbs: &mut [f32],
    line: &[f32],
    on: u8,
    now_ms: u64,
    done: &mut u8,
) -> u8
    ensures { SetFollowing line.now on now_ms crumbs.old done.old crumbs.new
        done.new words.old numbers.old result words.new numbers.new }
{
    calling::cittumay_set_following(words, numbers, crumbs, line, on, now_ms, done)
}
