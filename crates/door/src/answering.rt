// The calls that only answer. Each writes what the call answers and answers 0, or answers the number of
// the refusal and writes nothing but the length, 0, of an empty part. Slices that hold no state are
// refused with 10.

ghost use Rattle.std.specs.Prelude.{◌≡◌, ◌++◌, ◌≤◌, length, drop};
ghost use Rattle.refusal.specs.Refusal.{asked};
ghost use Rattle.answers.specs.Promises.{AnswersLen, AnswersFollowing, AnswersFollowingCourse, AnswersCourseAhead, AnswersRouteHome};
ghost use Rattle.answers.specs.Promises.{AnswersHeading, AnswersGuide, AnswersWayBack, ReturnsCrumbs, ReturnsCourse, AnswersArrow};
ghost use Rattle.stored.specs.Fields.{most16, word_at};
ghost use Rattle.stored.specs.Stored.{stored};
ghost use Rattle.door.specs.Through.{no_state, no_state_with, values_of};
ghost use Rattle.stored.specs.Parts.{guide_read, guide_words};
ghost use Rattle.door.specs.GuideWords.{guide_size, are_guide, guide_of};
ghost use Rattle.door.specs.Answers.{Answers, Parts, itself, flagged, spotted, leading, ahead_values, riding, heading_values, showing};
ghost use Rattle.door.specs.Answers.{spot_values, guide_values, with_room, returning, back_values, part_count};

use crate::numbering;
use crate::numbering::NO_STATE;
use plane::Point;
use refusal::Refusal;
use state::{Ahead, Guide};

// How many words a guide takes.
const GUIDE: usize = 10;

// The most that a mode's word may be, and a bearing's or a heading's.
const MODE_MOST: u32 = 3;

const ANGLE_MOST: u32 = u16::MAX as u32;

// ---- of the state alone

pub fn cittumay_len(words: &[u64], numbers: &[f32], len: &mut usize) -> u8
    ensures { Answers (stored words.now numbers.now) no_state AnswersLen itself result len.old
        len.new }
{
    let Some(h) = stored::load(words, numbers) else {
        return NO_STATE;
    };
    numbering::put(answers::len(&h), len)
}

pub fn cittumay_following(words: &[u64], numbers: &[f32], yes: &mut u8) -> u8
    ensures { Answers (stored words.now numbers.now) no_state AnswersFollowing flagged result
        yes.old yes.new }
{
    let Some(h) = stored::load(words, numbers) else {
        return NO_STATE;
    };
    numbering::put_flag(answers::following(&h), yes)
}

pub fn cittumay_following_course(words: &[u64], numbers: &[f32], yes: &mut u8) -> u8
    ensures { Answers (stored words.now numbers.now) no_state AnswersFollowingCourse flagged result
        yes.old yes.new }
{
    let Some(h) = stored::load(words, numbers) else {
        return NO_STATE;
    };
    numbering::put_flag(answers::following_course(&h), yes)
}

fn put_spot(point: Option<Point>, matched: &mut u8, east: &mut f32, north: &mut f32)
    ensures { spot_values matched.new east.new north.new
        ≡ spotted point (spot_values matched.old east.old north.old) }
{
    let Some(p) = point else {
        *matched = 0;
        return;
    };
    *matched = 1;
    *east = p.east;
    *north = p.north;
}

fn put_ahead(
    answer: Result<Option<Ahead>, Refusal>,
    known: &mut u8,
    count: &mut usize,
    matched: &mut u8,
    east: &mut f32,
    north: &mut f32,
) -> u8
    ensures value { result ≡ asked answer }
    ensures north_after { ahead_values known.new count.new
        (spot_values matched.new east.new north.new)
        ≡ values_of leading answer
        (ahead_values known.old count.old
        (spot_values matched.old east.old north.old)) }
{
    match answer {
        Ok(Some(ahead)) => {
            *known = 1;
            *count = ahead.end;
            put_spot(ahead.point, matched, east, north);
            0
        }
        Ok(None) => {
            *known = 0;
            0
        }
        Err(refusal) => refusal.number(),
    }
}

// `known` becomes 1 where the course is followed: `count` points of it are ahead, end first, and behind
// them, where `matched` becomes 1, the point where the rider is. Where `known` or `matched` becomes 0, what
// it speaks of stays as it was.
pub fn cittumay_course_ahead(
    words: &[u64],
    numbers: &[f32],
    known: &mut u8,
    count: &mut usize,
    matched: &mut u8,
    east: &mut f32,
    north: &mut f32,
) -> u8
    ensures { Answers (stored words.now numbers.now) no_state AnswersCourseAhead leading result
        (ahead_values known.old count.old (spot_values matched.old east.old north.old))
        (ahead_values known.new count.new (spot_values matched.new east.new north.new)) }
{
    let Some(h) = stored::load(words, numbers) else {
        return NO_STATE;
    };
    let answer = answers::course_ahead(&h);
    put_ahead(answer, known, count, matched, east, north)
}

// `known` becomes 1 where the breadcrumb is followed: `count` crumbs of it are on the way home, and behind them, where `matched` becomes
// 1, the point where the rider is. Where `known` or `matched` becomes 0, what it speaks of stays as it was.
pub fn cittumay_route_home(
    words: &[u64],
    numbers: &[f32],
    known: &mut u8,
    count: &mut usize,
    matched: &mut u8,
    east: &mut f32,
    north: &mut f32,
) -> u8
    ensures { Answers (stored words.now numbers.now) no_state AnswersRouteHome leading result
        (ahead_values known.old count.old (spot_values matched.old east.old north.old))
        (ahead_values known.new count.new (spot_values matched.new east.new north.new)) }
{
    let Some(h) = stored::load(words, numbers) else {
        return NO_STATE;
    };
    let answer = answers::route_home(&h);
    put_ahead(answer, known, count, matched, east, north)
}

// `heading` stays as it was where `known` becomes 0.
pub fn cittumay_heading(words: &[u64], numbers: &[f32], known: &mut u8, heading: &mut u16) -> u8
    ensures { Answers (stored words.now numbers.now) no_state AnswersHeading riding result
        (heading_values known.old heading.old) (heading_values known.new heading.new) }
{
    let Some(h) = stored::load(words, numbers) else {
        return NO_STATE;
    };
    match answers::heading(&h) {
        Ok(Some(angle)) => {
            *known = 1;
            *heading = angle;
            0
        }
        Ok(None) => {
            *known = 0;
            0
        }
        Err(refusal) => refusal.number(),
    }
}

// ---- a guide as words

// In 32 bits a word, which the C interface needs, and not in 64 as in a stored state.
fn put_guide(g: Guide, words: &mut [u32])
    requires { guide_size ≤ length words.old }
    ensures { words.new ≡ guide_words g ++ drop guide_size words.old }
{
    let fields = [
        g.mode as u32,
        u32::from(g.following),
        u32::from(g.course),
        u32::from(g.course_near),
        g.direct_m,
        g.track_m,
        g.off_m,
        u32::from(g.bearing),
        u32::from(g.heading.is_some()),
        u32::from(g.heading.unwrap_or(0)),
    ];
    words[..GUIDE].copy_from_slice(&fields);
}

// Ten words are written to `guide`: mode, following, course, course_near, direct_m, track_m, off_m, bearing, whether a heading is known,
// and the heading, 0 where it is not. They stay as they were where `shown` becomes 0. Where `guide` has no room for ten words, the call
// is refused with 10.
pub fn cittumay_guide(words: &[u64], numbers: &[f32], shown: &mut u8, guide: &mut [u32]) -> u8
    ensures { Answers
        (with_room guide.old (stored words.now numbers.now)) no_state AnswersGuide showing result
        (guide_values shown.old guide.old) (guide_values shown.new guide.new) }
{
    if guide.len() < GUIDE {
        return NO_STATE;
    }
    let Some(h) = stored::load(words, numbers) else {
        return NO_STATE;
    };
    match answers::guide(&h) {
        Ok(Some(g)) => {
            *shown = 1;
            put_guide(g, guide);
            0
        }
        Ok(None) => {
            *shown = 0;
            0
        }
        Err(refusal) => refusal.number(),
    }
}

// ---- of the state and a lent buffer

// Where the slices hold no state, question 1 comes first. `direct` and `track` stay as they were where
// `known` becomes 0.
pub fn cittumay_way_back(
    words: &[u64],
    numbers: &[f32],
    crumbs: &[f32],
    known: &mut u8,
    direct: &mut u32,
    track: &mut u32,
) -> u8
    ensures { Answers (stored words.now numbers.now) (no_state_with (length crumbs.now))
        (λ h. AnswersWayBack h crumbs.now) returning result (back_values known.old direct.old
        track.old) (back_values known.new direct.new track.new) }
{
    let Some(h) = stored::load(words, numbers) else {
        return numbering::no_state_with(crumbs.len());
    };
    match answers::way_back(&h, crumbs) {
        Ok(Some(back)) => {
            *known = 1;
            *direct = back.direct;
            *track = back.track;
            0
        }
        Ok(None) => {
            *known = 0;
            0
        }
        Err(refusal) => refusal.number(),
    }
}

// A call refused with this number returns an empty part.
fn no_part(number: u8, len: &mut usize) -> u8
    ensures { (result ≡ number) × (len.new ≡ 0) }
{
    *len = 0;
    number
}

// The length in crumbs of the part that a call returns, and its number.
fn put_part(part: Result<&[f32], Refusal>, len: &mut usize) -> u8
    ensures value { result ≡ asked part.entry }
    ensures counted { len.new ≡ part_count part.entry }
{
    match part {
        Ok(held) => {
            *len = crumbs::capacity(held.len());
            0
        }
        Err(refusal) => no_part(refusal.number(), len),
    }
}

// The kept crumbs are the first `len` of the buffer, none on a refusal.
pub fn cittumay_crumbs(words: &[u64], numbers: &[f32], crumbs: &[f32], len: &mut usize) -> u8
    ensures { Parts (stored words.now numbers.now) (no_state_with (length crumbs.now))
        (λ h. ReturnsCrumbs h crumbs.now) crumbs.now result len.new }
{
    let Some(h) = stored::load(words, numbers) else {
        return no_part(numbering::no_state_with(crumbs.len()), len);
    };
    put_part(answers::crumbs(&h, crumbs), len)
}

// The course, end first, is the first `len` crumbs of the line; none until it is placed, and none on a refusal.
pub fn cittumay_course(words: &[u64], numbers: &[f32], line: &[f32], len: &mut usize) -> u8
    ensures { Parts (stored words.now numbers.now) no_state (λ h. ReturnsCourse h line.now)
        line.now result len.new }
{
    let Some(h) = stored::load(words, numbers) else {
        return no_part(NO_STATE, len);
    };
    put_part(answers::course(&h, line), len)
}

// ---- of a guide

fn are_guide(words: &[u32]) -> bool
    ensures { result ≡ are_guide words.now }
{
    if words.len() < GUIDE {
        return false;
    }
    let flags = (words[1] <= 1) & (words[2] <= 1) & (words[3] <= 1) & (words[8] <= 1);
    let angles = (words[7] <= ANGLE_MOST) & (words[9] <= ANGLE_MOST);
    (words[0] <= MODE_MOST) & flags & angles
}

// `are_guide` asks all words, and this reads them: with both in one, each field would be an Option to take apart.
fn guide_at(words: &[u32]) -> Guide
    requires long { guide_size ≤ length words.now }
    requires angles { (word_at words.now 7 ≤ most16) × (word_at words.now 9 ≤ most16) }
    ensures { result ≡ guide_read words.now 0 }
{
    Guide {
        mode: stored::mode_of(u64::from(words[0])),
        following: words[1] == 1,
        course: words[2] == 1,
        course_near: words[3] == 1,
        direct_m: words[4],
        track_m: words[5],
        off_m: words[6],
        bearing: words[7] as u16,
        heading: (words[8] == 1).then_some(words[9] as u16),
    }
}

// `guide` is a guide's words as `guide` writes them; words that are no guide are refused with 10.
pub fn cittumay_arrow(guide: &[u32], arrow: &mut u16) -> u8
    ensures { Answers (guide_of guide.now) no_state AnswersArrow itself result arrow.old
        arrow.new }
{
    if !are_guide(guide) {
        return NO_STATE;
    }
    numbering::put(answers::arrow(guide_at(guide)), arrow)
}
