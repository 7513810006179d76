// A guide's state as words, in two arrays, in the order of the table in crates/stored/specs/Stored.antt. The words of a part stand
// one by one: `concat` would join them in memory of its own, and there is none.

ghost use Rattle.std.specs.Prelude.{◌≡◌, true, length, take, drop};
ghost use Rattle.stored.specs.Fields.{within};
ghost use Rattle.stored.specs.Parts.{PlaceFits};
ghost use Rattle.stored.specs.Words.{mosts, words_of};

use crate::{WORDS, layout, parts};
use state::Homing;

// The letters CITTUMA1.
pub const MARK: u64 = 4848499195026161969;

// How many words stand before the course's.
pub const FRONT: usize = layout::LINE_LEN;

// How many stand from the course's on.
const BACK: usize = WORDS - FRONT;

// The words before the course's.
pub fn front_words(h: Homing) -> [u64; FRONT]
    ensures { (result ≡ take 22 (words_of h)) × (within (take 22 mosts) (take 22 (words_of h)) ≡ true) × (PlaceFits h.frame.origin)
        × (PlaceFits h.fed) × (length h.window ≡ 96) }
{
    let trail = h.trail;
    let origin = parts::place_words(h.frame.origin);
    let fed = parts::place_words(h.fed);
    let motion = parts::motion_words(h.motion);
    let follow = parts::follow_words(h.follow);
    [
        MARK,
        trail.len as u64,
        trail.window_len as u64,
        u64::from(trail.retrace),
        trail.retrace_len as u64,
        origin[0],
        origin[1],
        origin[2],
        fed[0],
        fed[1],
        fed[2],
        u64::from(h.here.is_some()),
        h.here_ms,
        motion[0],
        motion[1],
        motion[2],
        motion[3],
        follow[0],
        follow[1],
        follow[2],
        follow[3],
        follow[4],
    ]
}

// The words from the course's on.
pub fn back_words(h: Homing) -> [u64; BACK]
    ensures { (result ≡ drop 22 (words_of h)) × (within (drop 22 mosts) (drop 22 (words_of h)) ≡ true) }
{
    let course = parts::course_words(h.course);
    let lap = parts::lap_words(h.lap);
    let guide = parts::guide_words(parts::guide_in(h.guide));
    [
        course[0],
        course[1],
        course[2],
        course[3],
        course[4],
        course[5],
        u64::from(h.auto_follow),
        u64::from(h.arrived),
        lap[0],
        lap[1],
        lap[2],
        h.updated_ms,
        u64::from(h.guide.is_some()),
        guide[0],
        guide[1],
        guide[2],
        guide[3],
        guide[4],
        guide[5],
        guide[6],
        guide[7],
        guide[8],
        guide[9],
    ]
}
