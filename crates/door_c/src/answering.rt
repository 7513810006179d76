// The calls that only answer. Each writes what the call answers and answers 0, or answers the number of
// the refusal and writes nothing but the length, 0, of an empty part. Slices that hold no state are
// refused with 10.

ghost use Rattle.std.specs.Prelude.{length};
ghost use Rattle.answers.specs.Promises.{AnswersLen, AnswersFollowing, AnswersFollowingCourse, AnswersCourseAhead, AnswersRouteHome};
ghost use Rattle.answers.specs.Promises.{AnswersHeading, AnswersGuide, AnswersWayBack, ReturnsCrumbs, ReturnsCourse, AnswersArrow};
ghost use Rattle.stored.specs.Stored.{stored};
ghost use Rattle.door.specs.Through.{no_state, no_state_with};
ghost use Rattle.door.specs.GuideWords.{guide_of};
ghost use Rattle.door.specs.Answers.{Answers, Parts, itself, flagged, leading, ahead_values, riding, heading_values, showing};
ghost use Rattle.door.specs.Answers.{spot_values, guide_values, with_room, returning, back_values};

use door::answering;

#[unsafe(no_mangle)]
pub extern "C" fn cittumay_len(words: &[u64], numbers: &[f32], len: &mut usize) -> u8
    ensures { Answers (stored words.now numbers.now) no_state AnswersLen itself result len.old
        len.new }
{
    answering::cittumay_len(words, numbers, len)
}

#[unsafe(no_mangle)]
pub extern "C" fn cittumay_following(words: &[u64], numbers: &[f32], yes: &mut u8) -> u8
    ensures { Answers (stored words.now numbers.now) no_state AnswersFollowing flagged result
        yes.old yes.new }
{
    answering::cittumay_following(words, numbers, yes)
}

#[unsafe(no_mangle)]
pub extern "C" fn cittumay_following_course(words: &[u64], numbers: &[f32], yes: &mut u8) -> u8
    ensures { Answers (stored words.now numbers.now) no_state AnswersFollowingCourse flagged result
        yes.old yes.new }
{
    answering::cittumay_following_course(words, numbers, yes)
}

// `known` becomes 1 where the course is followed: `count` points of it are ahead, end first, and behind
// them, where `matched` becomes 1, the point where the rider is. Where `known` or `matched` becomes 0, what
// it speaks of stays as it was.
#[unsafe(no_mangle)]
pub extern "C" fn cittumay_course_ahead(
    words: &[u64],
    numbers: &[f32],
    known: &mut u8,
    count: &mut usize,
    matched: &mut u8,
    east: &mut f32,
    north: &mut f32,
) -> u8
    ensures { Answers (stored words.now numbers.now) no_state AnswersCourseAhead leading result
        (ahead_values known.old count.old (spot_values matched.old east.old north.old))
        (ahead_values known.new count.new (spot_values matched.new east.new north.new)) }
{
    answering::cittumay_course_ahead(words, numbers, known, count, matched, east, north)
}

// `known` becomes 1 where the breadcrumb is followed: `count` crumbs of it are on the way home, and behind them, where `matched` becomes
// 1, the point where the rider is. Where `known` or `matched` becomes 0, what it speaks of stays as it was.
#[unsafe(no_mangle)]
pub extern "C" fn cittumay_route_home(
    words: &[u64],
    numbers: &[f32],
    known: &mut u8,
    count: &mut usize,
    matched: &mut u8,
    east: &mut f32,
    north: &mut f32,
) -> u8
    ensures { Answers (stored words.now numbers.now) no_state AnswersRouteHome leading result
        (ahead_values known.old count.old (spot_values matched.old east.old north.old))
        (ahead_values known.new count.new (spot_values matched.new east.new north.new)) }
{
    answering::cittumay_route_home(words, numbers, known, count, matched, east, north)
}

// `heading` stays as it was where `known` becomes 0.
#[unsafe(no_mangle)]
pub extern "C" fn cittumay_heading(
    words: &[u64],
    numbers: &[f32],
    known: &mut u8,
    heading: &mut u16,
) -> u8
    ensures { Answers (stored words.now numbers.now) no_state AnswersHeading riding result
        (heading_values known.old heading.old) (heading_values known.new heading.new) }
{
    answering::cittumay_heading(words, numbers, known, heading)
}

// Ten words are written to `guide`: mode, following, course, course_near, direct_m, track_m, off_m, bearing, whether a heading is known,
// and the heading, 0 where it is not. They stay as they were where `shown` becomes 0. Where `guide` has no room for ten words, the call
// is refused with 10.
#[unsafe(no_mangle)]
pub extern "C" fn cittumay_guide(
    words: &[u64],
    numbers: &[f32],
    shown: &mut u8,
    guide: &mut [u32],
) -> u8
    ensures { Answers
        (with_room guide.old (stored words.now numbers.now)) no_state AnswersGuide showing result
        (guide_values shown.old guide.old) (guide_values shown.new guide.new) }
{
    answering::cittumay_guide(words, numbers, shown, guide)
}

// Where the slices hold no state, question 1 comes first. `direct` and `track` stay as they were where
// `known` becomes 0.
#[unsafe(no_mangle)]
pub extern "C" fn cittumay_way_back(
    words: &[u64],
    numbers: &[f32],
    crumbs: &[f32],
    known: &mut u8,
    direct: &mut u32,
    track: &mut u32,
) -> u8
    ensures { Answers (stored words.now numbers.now) (no_state_with (length crumbs.now))
        (λ h. AnswersWayBack h crumbs.now) returning result (back_values known.old direct.old
        track.old) (back_values known.new direct.new track.new) }
{
    answering::cittumay_way_back(words, numbers, crumbs, known, direct, track)
}

// The kept crumbs are the first `len` of the buffer, none on a refusal.
#[unsafe(no_mangle)]
pub extern "C" fn cittumay_crumbs(
    words: &[u64],
    numbers: &[f32],
    crumbs: &[f32],
    len: &mut usize,
) -> u8
    ensures { Parts (stored words.now numbers.now) (no_state_with (length crumbs.now))
        (λ h. ReturnsCrumbs h crumbs.now) crumbs.now result len.new }
{
    answering::cittumay_crumbs(words, numbers, crumbs, len)
}

// The course, end first, is the first `len` crumbs of the line; none until it is placed, and none on a refusal.
#[unsafe(no_mangle)]
pub extern "C" fn cittumay_course(
    words: &[u64],
    numbers: &[f32],
    line: &[f32],
    len: &mut usize,
) -> u8
    ensures { Parts (stored words.now numbers.now) no_state (λ h. ReturnsCourse h line.now)
        line.now result len.new }
{
    answering::cittumay_course(words, numbers, line, len)
}

// `guide` is a guide's words as `guide` writes them; words that are no guide are refused with 10.
#[unsafe(no_mangle)]
pub extern "C" fn cittumay_arrow(guide: &[u32], arrow: &mut u16) -> u8
    ensures { Answers (guide_of guide.now) no_state AnswersArrow itself result arrow.old
        arrow.new }
{
    answering::cittumay_arrow(guide, arrow)
}
