// One field of a guide's state, as words and numbers in slices that the caller lends. A flag is 0 or 1; what may
// be missing is a flag with its parts behind it, which are 0 where it is missing and are then not read.

ghost use Rattle.std.specs.Prelude.{◌≡◌, ◌+◌, ◌<◌, length};
ghost use Rattle.stored.specs.Fields.{within, flag_at, signed_at, point_at, spot_at, heading_at, place_read, line_of_tag, stage_of_tag};
ghost use Rattle.stored.specs.Fields.{mode_of_tag, point_in, line_tag, stage_tag, mode_tag};

use lap::Stage as Pass;
use plane::{Fix, Point};
use state::{Line, Mode};

// The most that a word may be, by its field's type.
pub const U64: u64 = u64::MAX;

pub const U32: u64 = u32::MAX as u64;

pub const U16: u64 = u16::MAX as u64;

pub const U8: u64 = u8::MAX as u64;

// Each word is at most what `most` says.
pub fn within<const N: usize>(most: &[u64; N], words: &[u64; N]) -> bool
    ensures { result ≡ within most.now words.now }
{
    most.iter().zip(words).all(|(limit, word)| word <= limit)
}

// ---- fields, read

pub fn flag_at(words: &[u64], i: usize) -> bool
    requires { i < length words.now }
    ensures { result ≡ flag_at words.now i }
{
    words[i] == 1
}

fn i32_at(words: &[u64], i: usize) -> i32
    requires { i < length words.now }
    ensures { result ≡ signed_at words.now i }
{
    u32::try_from(words[i]).unwrap_or(0).cast_signed()
}

fn point_at(numbers: &[f32], j: usize) -> Point
    requires { j + 1 < length numbers.now }
    ensures { result ≡ point_at numbers.now j }
{
    Point {
        east: numbers[j],
        north: numbers[j + 1],
    }
}

pub fn spot_at(words: &[u64], i: usize, numbers: &[f32], j: usize) -> Option<Point>
    requires { (i < length words.now) × (j + 1 < length numbers.now) }
    ensures { result ≡ spot_at words.now i numbers.now j }
{
    flag_at(words, i).then_some(point_at(numbers, j))
}

pub fn heading_at(words: &[u64], i: usize) -> Option<u16>
    requires { i + 1 < length words.now }
    ensures { result ≡ heading_at words.now i }
{
    let heading = u16::try_from(words[i + 1]).unwrap_or(0);
    flag_at(words, i).then_some(heading)
}

pub fn place_at(words: &[u64], i: usize) -> Option<Fix>
    requires { i + 2 < length words.now }
    ensures { result ≡ place_read words.now i }
{
    let fix = Fix {
        lat: i32_at(words, i + 1),
        lon: i32_at(words, i + 2),
    };
    flag_at(words, i).then_some(fix)
}

// ---- tags

// The enums are other crates', and the rules read a number of no case as the first one, so these are functions, and none can fail.

pub fn line_of(tag: u64) -> Line
    ensures { result ≡ line_of_tag tag }
{
    match tag {
        1 => Line::Breadcrumb,
        2 => Line::Course,
        _ => Line::Nothing,
    }
}

pub fn line_tag(l: Line) -> u64
    ensures { result ≡ line_tag l }
{
    l as u64
}

pub fn pass_of(tag: u64) -> Pass
    ensures { result ≡ stage_of_tag tag }
{
    match tag {
        1 => Pass::Armed,
        2 => Pass::Inside,
        _ => Pass::Spent,
    }
}

pub fn pass_tag(s: Pass) -> u64
    ensures { result ≡ stage_tag s }
{
    s as u64
}

pub fn mode_of(tag: u64) -> Mode
    ensures { result ≡ mode_of_tag tag }
{
    match tag {
        1 => Mode::Track,
        2 => Mode::OffTrack,
        3 => Mode::Arrived,
        _ => Mode::Direct,
    }
}

pub fn mode_tag(m: Mode) -> u64
    ensures { result ≡ mode_tag m }
{
    m as u64
}

// ---- fields, written

pub fn point_in(s: Option<Point>) -> Point
    ensures { result ≡ point_in s }
{
    s.unwrap_or(Point {
        east: 0.0,
        north: 0.0,
    })
}
