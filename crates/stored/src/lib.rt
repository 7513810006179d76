// A guide's state in slices that the caller lends: words, and numbers beside them. The layout is the table in
// specs/Stored.antt, and `layout` has its positions. Word 0 is a mark. `fields` has one field, `parts` the groups,
// `state_words` all words; `stored_rebuild` is the same for a rebuild.
#![tactic(auto)]

mod fields;
mod layout;
mod parts;
mod state_words;
mod stored_rebuild;

ghost use Rattle.std.specs.Prelude.{◌≡◌, ◌&&◌, ◌++◌, ◌≤◌, eqb, length, drop};
ghost use Rattle.stored.specs.Fields.{within, word_at};
ghost use Rattle.stored.specs.Parts.{word_count, number_count};
ghost use Rattle.stored.specs.Stored.{mark, mosts, homing_at, room_for, stored, StateFits, words_of, head_of, numbers_of, Stores};

pub use fields::mode_of;
use state::Homing;
pub use stored_rebuild::{REBUILD_WORDS, load_rebuild, store_rebuild};

pub const WORDS: usize = 45;

pub const NUMBERS: usize = 110;

// The most that each word may be, by its field's type.
const MOST: [u64; WORDS] = [
    state_words::MARK,
    fields::U64,
    fields::U64,
    fields::U8,
    fields::U64,
    1,
    fields::U32,
    fields::U32,
    1,
    fields::U32,
    fields::U32,
    1,
    fields::U64,
    1,
    1,
    fields::U16,
    fields::U64,
    2,
    fields::U64,
    1,
    1,
    fields::U64,
    fields::U64,
    1,
    1,
    fields::U8,
    fields::U64,
    1,
    1,
    1,
    2,
    1,
    1,
    fields::U64,
    1,
    3,
    1,
    1,
    1,
    fields::U32,
    fields::U32,
    fields::U32,
    fields::U16,
    1,
    fields::U16,
];

// `holds` asks all words, and this reads them, as the rule has it: with both in one, each field would be an Option to take apart.
fn homing_at(words: &[u64; WORDS], numbers: &[f32; NUMBERS]) -> Homing
    ensures { result ≡ homing_at words.now numbers.now }
{
    Homing {
        trail: parts::trail_at(words, numbers),
        window: parts::window_at(numbers),
        frame: parts::frame_at(words, numbers),
        fed: fields::place_at(words, layout::FED),
        here: fields::spot_at(words, layout::HERE, numbers, layout::HERE_POINT),
        here_ms: words[layout::HERE_MS],
        motion: parts::motion_at(words, numbers),
        follow: parts::follow_at(words, numbers),
        course: parts::course_at(words, numbers),
        auto_follow: fields::flag_at(words, layout::AUTO_FOLLOW),
        arrived: fields::flag_at(words, layout::ARRIVED),
        lap: parts::lap_at(words, numbers),
        updated_ms: words[layout::UPDATED_MS],
        guide: parts::shown_at(words),
    }
}

// ---- whether a state is held

// Whether there is room for a state.
pub fn has_room(words: &[u64], numbers: &[f32]) -> bool
    ensures { result ≡ room_for words.now numbers.now }
{
    WORDS <= words.len() && NUMBERS <= numbers.len()
}

// Whether the words are a state's, whatever the numbers beside them.
fn holds(words: &[u64; WORDS]) -> bool
    ensures { result ≡ (eqb (word_at words.now 0) mark && within mosts words.now) }
{
    words[layout::MARK] == state_words::MARK && fields::within(&MOST, words)
}

// The state that the slices hold.
pub fn load(words: &[u64], numbers: &[f32]) -> Option<Homing>
    ensures { result ≡ stored words.now numbers.now }
{
    let words = words.first_chunk()?;
    let numbers = numbers.first_chunk()?;
    holds(words).then(|| homing_at(words, numbers))
}

// ---- the state, written

// The numbers before the window.
fn head_of(h: Homing) -> [f32; layout::WINDOW]
    ensures { result ≡ head_of h }
{
    let here = fields::point_in(h.here);
    let from = fields::point_in(h.motion.from);
    let matched = fields::point_in(h.follow.matched);
    let fix = fields::point_in(h.course.fix);
    let start = fields::point_in(h.lap.start);
    [
        h.trail.tolerance,
        h.frame.east_per_e7,
        here.east,
        here.north,
        from.east,
        from.north,
        matched.east,
        matched.north,
        h.course.along,
        h.course.reached,
        fix.east,
        fix.north,
        start.east,
        start.north,
    ]
}

fn store_words(h: Homing, words: &mut [u64])
    requires { word_count ≤ length words.old }
    ensures { (words.new ≡ words_of h ++ drop word_count words.old) × (StateFits h) }
{
    words[..state_words::FRONT].copy_from_slice(&state_words::front_words(h));
    words[state_words::FRONT..WORDS].copy_from_slice(&state_words::back_words(h));
}

fn store_numbers(h: Homing, numbers: &mut [f32])
    requires { number_count ≤ length numbers.old }
    ensures { numbers.new ≡ numbers_of h ++ drop number_count numbers.old }
{
    numbers[..layout::WINDOW].copy_from_slice(&head_of(h));
    numbers[layout::WINDOW..NUMBERS].copy_from_slice(&h.window);
}

// The state `h` in the slices, in front of what lies behind.
pub fn store(h: Homing, words: &mut [u64], numbers: &mut [f32])
    requires { (word_count ≤ length words.old) × (number_count ≤ length numbers.old) }
    ensures { Stores h words.old numbers.old words.new numbers.new }
{
    store_numbers(h, numbers);
    store_words(h, words);
}
