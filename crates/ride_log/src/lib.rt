// The ride log: entries of up to four samples, and the chain file that holds them. What a file has is
// read where it stands; a byte behind its end counts as 0. `file_questions` has the questions put to it.
#![tactic(auto)]

pub mod file_questions;

ghost use Rattle.std.specs.Prelude.{◌≡◌, ◌*◌, ◌^◌, ◌<◌};
ghost use Rattle.ride_log.specs.Entry.{byte_at, u32_at, u64_at, i32_at, next_of, ride_of, kind_number, count_of};
ghost use Rattle.ride_log.specs.Entry.{sample_start};
ghost use Rattle.ride_log.specs.Entry.{kind_of, has_place, has_utc, place_at, utc_at, sample_at, sample_of, samples_of, entry_at};
ghost use Rattle.ride_log.specs.Entry.{recovered as recovered_of};

use plane::Fix;

// What an entry is, 1 to 7.
#[derive(Clone, Copy)]
pub enum Kind {
    Start,
    Samples,
    Pause,
    Resume,
    Finish,
    Recovered,
    Full,
}

#[derive(Clone, Copy)]
pub struct Sample {
    pub place: Option<Fix>,
    pub utc: Option<u64>,
}

// An entry carries four samples, of which `count` are used: the form in which the file has it. Memory is fixed, so no list of them.
#[derive(Clone, Copy)]
pub struct Entry {
    pub ride: u32,
    pub kind: Kind,
    pub count: u8,
    pub samples: [Sample; 4],
}

// The bytes of a record, those before its samples, and those of a sample.
pub const RECORD: usize = 96;

const HEAD: usize = 16;

const SAMPLE: usize = 20;

// ---- numbers, little-endian

#[tactic(auto, unfolding(crate::specs::Entry::byte_at))]
fn byte_at(file: &[u8], at: usize) -> u8
    ensures { result ≡ byte_at file.now at }
{
    file.get(at).copied().unwrap_or(0)
}

// One test for a number that the file has whole.
#[tactic(auto, unfolding(crate::specs::Entry::byte_at, crate::specs::Entry::u32_at))]
fn u32_at(file: &[u8], at: usize) -> u32
    requires { at < 2 ^ 42 }
    ensures { result ≡ u32_at file.now at }
{
    if at + 4 <= file.len() {
        return u32::from_le_bytes([file[at], file[at + 1], file[at + 2], file[at + 3]]);
    }
    u32::from_le_bytes([
        byte_at(file, at),
        byte_at(file, at + 1),
        byte_at(file, at + 2),
        byte_at(file, at + 3),
    ])
}

// Two numbers of 32 bits, as the rule has it; each of them has its own test for the file's end.
#[tactic(auto, unfolding(crate::specs::Entry::u64_at))]
fn u64_at(file: &[u8], at: usize) -> u64
    requires { at < 2 ^ 41 }
    ensures { result ≡ u64_at file.now at }
{
    let low = u64::from(u32_at(file, at));
    let high = u64::from(u32_at(file, at + 4));
    low + (high << 32)
}

fn i32_at(file: &[u8], at: usize) -> i32
    requires { at < 2 ^ 42 }
    ensures { result ≡ i32_at file.now at }
{
    u32_at(file, at).cast_signed()
}

// ---- records

// A record is named by the file that C lends and its index, as in the rules: a struct of both would be made for one question at a time, and
// taken apart in it.

fn start_of(index: u32) -> usize
    ensures { result ≡ 96 * index }
{
    RECORD * (index as usize)
}

// The index of the record after record `index` along the chain, 0 where the chain ends.
#[tactic(auto, unfolding(crate::specs::Entry::next_of))]
pub fn next_of(file: &[u8], index: u32) -> u32
    ensures { result ≡ next_of file.now index }
{
    u32_at(file, start_of(index))
}

// The records along the chain by their indices, from behind record `index` on. A chain that comes back to a record never ends, so no more
// come than the file has.
#[derive(Drop)]
pub struct Chain<'a> {
    file: &'a [u8],
    index: u32,
    left: usize,
}

impl<'a> Chain<'a> {
    ghost use Rattle.ride_log.specs.Chain.{left};
    ghost use Rattle.ride_log.specs.Entry.{chain, record_count};

    #[tactic(auto, unfolding(crate::specs::Chain::left, crate::specs::Entry::chain, crate::specs::Entry::record_count))]
    pub fn of(file: &'a [u8]) -> Chain<'a>
        ensures which { left result ≡ chain file.now }
        ensures most { result.left ≡ record_count file.now }
    {
        Chain {
            file,
            index: 0,
            left: file.len() / RECORD,
        }
    }
}

impl<'a> Iterator for Chain<'a> {
    ghost use Rattle.std.specs.Iterator.{item_count};
    ghost use Rattle.ride_log.specs.Chain.{left, GivesRecord};

    type Item = u32;

    ghost next_gives = { GivesRecord };

    ghost remaining = { item_count left };

    fn next(&mut self) -> Option<u32> {
        if self.left == 0 {
            return None;
        }
        let next = next_of(self.file, self.index);
        if next == 0 {
            return None;
        }
        self.index = next;
        self.left -= 1;
        Some(next)
    }
}

#[tactic(auto, unfolding(crate::specs::Entry::ride_of))]
fn ride_of(file: &[u8], index: u32) -> u32
    ensures { result ≡ ride_of file.now index }
{
    u32_at(file, start_of(index) + 4)
}

// The byte as the file has it: question 8 is put to it before a kind is made of it.
#[tactic(auto, unfolding(crate::specs::Entry::kind_number))]
pub fn kind_number(file: &[u8], index: u32) -> u8
    ensures { result ≡ kind_number file.now index }
{
    byte_at(file, start_of(index) + 8)
}

#[tactic(auto, unfolding(crate::specs::Entry::count_of))]
fn count_of(file: &[u8], index: u32) -> u8
    ensures { result ≡ count_of file.now index }
{
    byte_at(file, start_of(index) + 9)
}

// The rule reads a number of no kind as `Full`, so this is a From, which can't fail. Question 8 refuses a file with such a number.
impl From<u8> for Kind {
    ghost from_gives = { λ number kind. kind ≡ kind_of number };

    #[tactic(auto, using(crate::proofs::KindNumbers::last_kind), unfolding(crate::specs::Entry::kind_of))]
    fn from(number: u8) -> Kind
        ensures { result ≡ kind_of number }
    {
        match number {
            1 => Kind::Start,
            2 => Kind::Samples,
            3 => Kind::Pause,
            4 => Kind::Resume,
            5 => Kind::Finish,
            6 => Kind::Recovered,
            _ => Kind::Full,
        }
    }
}

// ---- samples

// A sample begins below 2^40, since an index has 32 bits, so no place in it leaves a usize.

#[tactic(auto, unfolding(crate::specs::Entry::place_at, crate::specs::Entry::has_place))]
fn place_at(file: &[u8], at: usize) -> Option<Fix>
    requires { at < 2 ^ 40 }
    ensures { result ≡ place_at (has_place (byte_at file.now at)) file.now at }
{
    (byte_at(file, at) % 2 == 1).then(|| Fix {
        lat: i32_at(file, at + 4),
        lon: i32_at(file, at + 8),
    })
}

#[tactic(auto, unfolding(crate::specs::Entry::utc_at, crate::specs::Entry::has_utc))]
fn utc_at(file: &[u8], at: usize) -> Option<u64>
    requires { at < 2 ^ 40 }
    ensures { result ≡ utc_at (has_utc (byte_at file.now at)) file.now at }
{
    (byte_at(file, at) / 2 % 2 == 1).then(|| u64_at(file, at + 12))
}

#[tactic(auto, unfolding(crate::specs::Entry::sample_at))]
fn sample_at(file: &[u8], at: usize) -> Sample
    requires { at < 2 ^ 40 }
    ensures { result ≡ sample_at file.now at }
{
    Sample {
        place: place_at(file, at),
        utc: utc_at(file, at),
    }
}

// Where sample `k` begins.
fn sample_start(index: u32, k: u8) -> usize
    requires { k < 4 }
    ensures { (result ≡ sample_start index k) × (result < 2 ^ 40) }
{
    start_of(index) + HEAD + SAMPLE * (k as usize)
}

// The place of sample `k`.
#[tactic(auto, unfolding(crate::specs::Entry::sample_at))]
fn place_of(file: &[u8], index: u32, k: u8) -> Option<Fix>
    requires { k < 4 }
    ensures { result ≡ (sample_at file.now (sample_start index k)).place }
{
    place_at(file, sample_start(index, k))
}

// Sample `k`, where the record's count reaches it.
#[tactic(auto, unfolding(crate::specs::Entry::sample_of, crate::specs::Entry::no_sample))]
fn sample_of(file: &[u8], index: u32, k: u8) -> Sample
    requires { k < 4 }
    ensures { result ≡ sample_of file.now index k }
{
    if k < count_of(file, index) {
        return sample_at(file, sample_start(index, k));
    }
    Sample {
        place: None,
        utc: None,
    }
}

#[tactic(auto, unfolding(crate::specs::Entry::samples_of))]
fn samples_of(file: &[u8], index: u32) -> [Sample; 4]
    ensures { result ≡ samples_of file.now index }
{
    // Four calls are as plain as a closure over 0 to 3.
    [
        sample_of(file, index, 0),
        sample_of(file, index, 1),
        sample_of(file, index, 2),
        sample_of(file, index, 3),
    ]
}

// The entry of record `index`. Samples past its count, and what their flags lack, are not read.
#[tactic(auto, unfolding(crate::specs::Entry::entry_at))]
pub fn entry_at(file: &[u8], index: u32) -> Entry
    ensures { result ≡ entry_at file.now index }
{
    Entry {
        ride: ride_of(file, index),
        kind: Kind::from(kind_number(file, index)),
        count: count_of(file, index),
        samples: samples_of(file, index),
    }
}

// The ride that a restart cut short.
#[tactic(auto, unfolding(crate::specs::Entry::recovered))]
pub fn recovered(file: &[u8]) -> u32
    ensures { result ≡ recovered_of file.now }
{
    ride_of(file, 0)
}
