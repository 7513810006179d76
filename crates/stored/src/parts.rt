// The parts of a guide's state, read from the words and the numbers of a whole one and written as words. Where each stands is
// the table in crates/stored/specs/Stored.antt.

ghost use Rattle.std.specs.Prelude.{◌≡◌, true, [], take, drop};
ghost use Rattle.stored.specs.Fields.{within};
ghost use Rattle.stored.specs.Parts.{window_at, trail_at, frame_at, motion_at, follow_at, course_at, lap_at};
ghost use Rattle.stored.specs.Parts.{guide_read, shown_at, guide_in, place_words, heading_words, motion_words, follow_words};
ghost use Rattle.stored.specs.Parts.{course_words, lap_words, guide_words, place_mosts, heading_mosts, motion_mosts, follow_mosts};
ghost use Rattle.stored.specs.Parts.{course_mosts, lap_mosts, guide_mosts, PlaceFits};

use crate::{NUMBERS, WORDS, fields, layout};
use lap::{Lap, StartPass};
use motion::Motion;
use plane::Fix;
use state::{Course, Follow, Frame, Guide, Mode};
use trail::Trail;

// How many numbers the window has, which stands behind all others.
const WINDOW: usize = NUMBERS - layout::WINDOW;

// ---- parts, read

pub fn window_at(numbers: &[f32; NUMBERS]) -> [f32; WINDOW]
    ensures { result ≡ take 96 (drop window_at numbers.now) }
{
    numbers[layout::WINDOW..].try_into().unwrap()
}

pub fn trail_at(words: &[u64; WORDS], numbers: &[f32; NUMBERS]) -> Trail
    ensures { result ≡ trail_at words.now numbers.now }
{
    Trail {
        len: words[layout::LEN] as usize,
        tolerance: numbers[layout::TOLERANCE],
        window_len: words[layout::WINDOW_LEN] as usize,
        retrace: u8::try_from(words[layout::RETRACE]).unwrap_or(0),
        retrace_len: words[layout::RETRACE_LEN] as usize,
    }
}

pub fn frame_at(words: &[u64; WORDS], numbers: &[f32; NUMBERS]) -> Frame
    ensures { result ≡ frame_at words.now numbers.now }
{
    Frame {
        origin: fields::place_at(words, layout::ORIGIN),
        east_per_e7: numbers[layout::EAST_PER_E7],
    }
}

pub fn motion_at(words: &[u64; WORDS], numbers: &[f32; NUMBERS]) -> Motion
    ensures { result ≡ motion_at words.now numbers.now }
{
    Motion {
        from: fields::spot_at(words, layout::FROM, numbers, layout::FROM_POINT),
        heading: fields::heading_at(words, layout::HEADING_KNOWN),
        heading_ms: words[layout::HEADING_MS],
    }
}

pub fn follow_at(words: &[u64; WORDS], numbers: &[f32; NUMBERS]) -> Follow
    ensures { result ≡ follow_at words.now numbers.now }
{
    Follow {
        line: fields::line_of(words[layout::LINE]),
        segment: words[layout::SEGMENT] as usize,
        matched: fields::spot_at(words, layout::MATCHED, numbers, layout::MATCHED_POINT),
        off: fields::flag_at(words, layout::OFF),
        reminded_ms: words[layout::REMINDED_MS],
    }
}

pub fn course_at(words: &[u64; WORDS], numbers: &[f32; NUMBERS]) -> Course
    ensures { result ≡ course_at words.now numbers.now }
{
    Course {
        line_len: words[layout::LINE_LEN] as usize,
        unplaced: fields::flag_at(words, layout::UNPLACED),
        held: fields::flag_at(words, layout::HELD),
        join_fixes: u8::try_from(words[layout::JOIN_FIXES]).unwrap_or(0),
        join_end: words[layout::JOIN_END] as usize,
        along: numbers[layout::COURSE_ALONG],
        reached: numbers[layout::COURSE_REACHED],
        fix: fields::spot_at(words, layout::FIX, numbers, layout::FIX_POINT),
    }
}

pub fn lap_at(words: &[u64; WORDS], numbers: &[f32; NUMBERS]) -> Lap
    ensures { result ≡ lap_at words.now numbers.now }
{
    let stage = fields::pass_of(words[layout::PASS]);
    Lap {
        pass: StartPass { stage },
        start: fields::spot_at(words, layout::START, numbers, layout::START_POINT),
        passed: fields::flag_at(words, layout::PASSED),
    }
}

fn guide_at(words: &[u64; WORDS]) -> Guide
    ensures { result ≡ guide_read words.now 35 }
{
    let i = layout::GUIDE;
    Guide {
        mode: fields::mode_of(words[i]),
        following: fields::flag_at(words, i + 1),
        course: fields::flag_at(words, i + 2),
        course_near: fields::flag_at(words, i + 3),
        direct_m: u32::try_from(words[i + 4]).unwrap_or(0),
        track_m: u32::try_from(words[i + 5]).unwrap_or(0),
        off_m: u32::try_from(words[i + 6]).unwrap_or(0),
        bearing: u16::try_from(words[i + 7]).unwrap_or(0),
        heading: fields::heading_at(words, i + 8),
    }
}

pub fn shown_at(words: &[u64; WORDS]) -> Option<Guide>
    ensures { result ≡ shown_at words.now }
{
    fields::flag_at(words, layout::SHOWN).then_some(guide_at(words))
}

// ---- parts, written

fn blank() -> Guide
    ensures { result ≡ guide_read [] 0 }
{
    Guide {
        mode: Mode::Direct,
        following: false,
        course: false,
        course_near: false,
        direct_m: 0,
        track_m: 0,
        off_m: 0,
        bearing: 0,
        heading: None,
    }
}

// Where no guide is shown its words are 0.
pub fn guide_in(s: Option<Guide>) -> Guide
    ensures { result ≡ guide_in s }
{
    s.unwrap_or(blank())
}

pub fn place_words(p: Option<Fix>) -> [u64; 3]
    ensures { (result ≡ place_words p) × (within place_mosts (place_words p) ≡ true) × (PlaceFits p) }
{
    let fix = p.unwrap_or(Fix { lat: 0, lon: 0 });
    [
        u64::from(p.is_some()),
        u64::from(fix.lat.cast_unsigned()),
        u64::from(fix.lon.cast_unsigned()),
    ]
}

fn heading_words(h: Option<u16>) -> [u64; 2]
    ensures { (result ≡ heading_words h) × (within heading_mosts (heading_words h) ≡ true) }
{
    [u64::from(h.is_some()), u64::from(h.unwrap_or(0))]
}

pub fn motion_words(m: Motion) -> [u64; 4]
    ensures { (result ≡ motion_words m) × (within motion_mosts (motion_words m) ≡ true) }
{
    let [known, heading] = heading_words(m.heading);
    [u64::from(m.from.is_some()), known, heading, m.heading_ms]
}

pub fn follow_words(f: Follow) -> [u64; 5]
    ensures { (result ≡ follow_words f) × (within follow_mosts (follow_words f) ≡ true) }
{
    [
        fields::line_tag(f.line),
        f.segment as u64,
        u64::from(f.matched.is_some()),
        u64::from(f.off),
        f.reminded_ms,
    ]
}

pub fn course_words(c: Course) -> [u64; 6]
    ensures { (result ≡ course_words c) × (within course_mosts (course_words c) ≡ true) }
{
    [
        c.line_len as u64,
        u64::from(c.unplaced),
        u64::from(c.held),
        u64::from(c.join_fixes),
        c.join_end as u64,
        u64::from(c.fix.is_some()),
    ]
}

pub fn lap_words(l: Lap) -> [u64; 3]
    ensures { (result ≡ lap_words l) × (within lap_mosts (lap_words l) ≡ true) }
{
    [
        fields::pass_tag(l.pass.stage),
        u64::from(l.start.is_some()),
        u64::from(l.passed),
    ]
}

pub fn guide_words(g: Guide) -> [u64; 10]
    ensures { (result ≡ guide_words g) × (within guide_mosts (guide_words g) ≡ true) }
{
    let [known, heading] = heading_words(g.heading);
    [
        fields::mode_tag(g.mode),
        u64::from(g.following),
        u64::from(g.course),
        u64::from(g.course_near),
        u64::from(g.direct_m),
        u64::from(g.track_m),
        u64::from(g.off_m),
        u64::from(g.bearing),
        known,
        heading,
    ]
}
