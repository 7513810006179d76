// The calls that change the guide.

ghost use Rattle.std.specs.Prelude.{◌≡◌, ◌≤◌, length};
ghost use Rattle.course.specs.Course.{fixes};
ghost use Rattle.stored.specs.Stored.{word_count, number_count};
ghost use Rattle.door.specs.Through.{Leaves};
ghost use Rattle.door.specs.Calls.{number_of_event, New, Reset, EndReplay, SetCourse, SetAutoFollow, Observe, Replay, SetFollowing};

use crate::numbering;
use crate::numbering::NO_STATE;
use plane::Fix;
use state::{Event, Homing};

fn number_of_event(event: Event) -> u8
    ensures { result ≡ number_of_event event }
{
    event as u8
}

// ---- the state kept

// Keeps the state that a call gave where no question refused it: where `number`, which the C interface answers, is 0.
fn keep(number: u8, h: Homing, words: &mut [u64], numbers: &mut [f32]) -> u8
    requires { (word_count ≤ length words.old) × (number_count ≤ length numbers.old) }
    ensures value { result ≡ number }
    ensures leaves { Leaves result h words.old numbers.old words.new numbers.new }
{
    if number != 0 {
        return number;
    }
    stored::store(h, words, numbers);
    0
}

// ---- the guide made anew

// A new guide, with a breadcrumb in `crumbs`.
pub fn cittumay_new(words: &mut [u64], numbers: &mut [f32], crumbs: &[f32]) -> u8
    ensures { New crumbs.now words.old numbers.old result words.new numbers.new }
{
    let (h, answer) = homing::new(crumbs);
    if !stored::has_room(words, numbers) {
        return numbering::no_state_with(crumbs.len());
    }
    keep(numbering::number_of(answer), h, words, numbers)
}

// Forget the breadcrumb: a new ride starts where its first fix is.
pub fn cittumay_reset(words: &mut [u64], numbers: &mut [f32]) -> u8
    ensures { Reset words.old numbers.old result words.new numbers.new }
{
    let Some(mut h) = stored::load(words, numbers) else {
        return NO_STATE;
    };
    let answer = homing::reset(&mut h);
    keep(numbering::number_of(answer), h, words, numbers)
}

// Live fixes follow the replayed ones.
pub fn cittumay_end_replay(words: &mut [u64], numbers: &mut [f32]) -> u8
    ensures { EndReplay words.old numbers.old result words.new numbers.new }
{
    let Some(mut h) = stored::load(words, numbers) else {
        return NO_STATE;
    };
    let answer = homing::end_replay(&mut h);
    keep(numbering::number_of(answer), h, words, numbers)
}

// ---- the course

// The course to follow, start first, as latitudes and longitudes side by side.
pub fn cittumay_set_course(
    words: &mut [u64],
    numbers: &mut [f32],
    line: &mut [f32],
    lats: &[i32],
    lons: &[i32],
) -> u8
    ensures { SetCourse (fixes lats.now lons.now) line.old line.new words.old
        numbers.old result words.new numbers.new }
{
    let Some(mut h) = stored::load(words, numbers) else {
        return NO_STATE;
    };
    let answer = homing::set_course(&mut h, line, lats, lons);
    keep(numbering::number_of(answer), h, words, numbers)
}

// ---- a fix

fn observe_place(
    words: &mut [u64],
    numbers: &mut [f32],
    crumbs: &mut [f32],
    line: &[f32],
    place: Option<Fix>,
    now_ms: u64,
    event: &mut u8,
) -> u8
    ensures { Observe line.now place now_ms crumbs.old event.old crumbs.new
        event.new words.old numbers.old result words.new numbers.new }
{
    let Some(mut h) = stored::load(words, numbers) else {
        return numbering::no_state_with(crumbs.len());
    };
    let answer = homing::observe(&mut h, crumbs, line, place, now_ms);
    let number = numbering::put(answer.map(number_of_event), event);
    keep(number, h, words, numbers)
}

// The ride's position. What it changed is written to `event`.
pub fn cittumay_observe(
    words: &mut [u64],
    numbers: &mut [f32],
    crumbs: &mut [f32],
    line: &[f32],
    lat: i32,
    lon: i32,
    now_ms: u64,
    event: &mut u8,
) -> u8
    ensures { Observe line.now (Some (record { lat = lat; lon = lon })) now_ms crumbs.old event.old
        crumbs.new event.new words.old numbers.old result words.new numbers.new }
{
    observe_place(
        words,
        numbers,
        crumbs,
        line,
        Some(Fix { lat, lon }),
        now_ms,
        event,
    )
}

// No position is known.
pub fn cittumay_observe_missing(
    words: &mut [u64],
    numbers: &mut [f32],
    crumbs: &mut [f32],
    line: &[f32],
    now_ms: u64,
    event: &mut u8,
) -> u8
    ensures { Observe line.now None now_ms crumbs.old event.old crumbs.new
        event.new words.old numbers.old result words.new numbers.new }
{
    observe_place(words, numbers, crumbs, line, None, now_ms, event)
}

// A fix from before a restart, `at_ms` into the replay.
pub fn cittumay_replay(
    words: &mut [u64],
    numbers: &mut [f32],
    crumbs: &mut [f32],
    lat: i32,
    lon: i32,
    at_ms: u64,
) -> u8
    ensures { Replay (record { lat = lat; lon = lon }) at_ms crumbs.old crumbs.new words.old
        numbers.old result words.new numbers.new }
{
    let Some(mut h) = stored::load(words, numbers) else {
        return numbering::no_state_with(crumbs.len());
    };
    let answer = homing::replay(&mut h, crumbs, Fix { lat, lon }, at_ms);
    keep(numbering::number_of(answer), h, words, numbers)
}

// ---- what the rider chooses

// Whether riding back over the breadcrumb, or along the course, starts following it.
pub fn cittumay_set_auto_follow(
    words: &mut [u64],
    numbers: &mut [f32],
    crumbs: &mut [f32],
    on: u8,
) -> u8
    ensures { SetAutoFollow on crumbs.old crumbs.new words.old numbers.old result
        words.new numbers.new }
{
    let Some(mut h) = stored::load(words, numbers) else {
        return numbering::no_state_with(crumbs.len());
    };
    let answer = homing::set_auto_follow(&mut h, crumbs, on != 0);
    keep(numbering::number_of(answer), h, words, numbers)
}

// Follow the course while it is near, else the breadcrumb back; or stop following. `done` becomes 0 where no
// way back was found, else 1.
pub fn cittumay_set_following(
    words: &mut [u64],
    numbers: &mut [f32],
    crumbs: &mut [f32],
    line: &[f32],
    on: u8,
    now_ms: u64,
    done: &mut u8,
) -> u8
    ensures { SetFollowing line.now on now_ms crumbs.old done.old crumbs.new
        done.new words.old numbers.old result words.new numbers.new }
{
    let Some(mut h) = stored::load(words, numbers) else {
        return numbering::no_state_with(crumbs.len());
    };
    let answer = homing::set_following(&mut h, crumbs, line, on != 0, now_ms);
    keep(numbering::put_flag(answer, done), h, words, numbers)
}
