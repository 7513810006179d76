// A stored ride: what stands in it, and how it is read. All numbers are little-endian. `calls`: which calls there are; `telling`: the
// answers; `faults`: why a ride is not replayed to its end; `comparing`: what a call tells held to what is stored.
#![tactic(auto)]

pub mod calls;
pub mod comparing;
pub mod faults;
pub mod telling;

ghost use Rattle.std.specs.Prelude.{◌≡◌, ◌%◌, ◌^◌, IfOk, length};

use calls::Call;
use faults::{Fault, Moment};
use std::io;
use std::io::{ErrorKind, Read};
use telling::{ANSWERS, Answers};

// The letters RECORDED.
const MARK: u64 = 0x4445_4452_4f43_4552;

// How many bytes a header and a record have, and how many of a record's stand before its answers.
const HEADER_BYTES: usize = 24;

const RECORD_BYTES: usize = 440;

const FRONT_BYTES: usize = 104;

// The most bytes that are read at once: a chain file of 683 records.
pub const BLOCK: usize = 65568;

// What stands before the calls: how many follow, and how many numbers the guide's own crumb buffer has.
#[derive(Clone, Copy)]
pub struct Header {
    pub calls: u64,
    pub own: usize,
}

// Two words of the state that are replaced, and a number: the place of each, and what stands there instead. A place behind the state
// replaces nothing. No Options: a place would be held to the state's size all the same where it is used as an index.
#[derive(Clone, Copy)]
pub struct Replaced {
    pub words: [(usize, u64); 2],
    pub number: (usize, f32),
}

// A call: how many bytes behind the record it is given, how many numbers it is lent for crumbs and as the line, what it finds replaced
// in the state, and what the Rust answered.
#[derive(Clone, Copy)]
pub struct Record {
    pub call: Call,
    pub given: usize,
    pub crumbs_lent: usize,
    pub line_lent: usize,
    pub replaced: Replaced,
    pub stored: Answers,
}

// The f32 with this pattern.
pub fn float(pattern: u32) -> f32 {
    if pattern % 0x8000_0000 > 0x7f80_0000 {
        return f32::NAN;
    }
    f32::from_bits(pattern)
}

pub fn low(number: u64) -> u32
    ensures { result ≡ number % 2 ^ 32 }
{
    (number % 0x1_0000_0000) as u32
}

// ---- reading

// Fills the buffer. False: the input ends before.
pub fn fill(input: &mut impl Read, bytes: &mut [u8]) -> io::Result<bool> {
    match input.read_exact(bytes) {
        Ok(()) => Ok(true),
        Err(e) if e.kind() == ErrorKind::UnexpectedEof => Ok(false),
        Err(e) => Err(e),
    }
}

fn read<R: Read, const N: usize>(input: &mut R) -> Result<[u8; N], Fault> {
    let mut bytes = [0u8; N];
    if !fill(input, &mut bytes)? {
        return Err(Fault::CutOff);
    }
    Ok(bytes)
}

// The numbers that stand in these bytes.
fn numbers<const N: usize>(bytes: &[u8]) -> [u64; N] {
    let mut numbers = [0u64; N];
    for (number, bytes) in numbers.iter_mut().zip(bytes.as_chunks::<8>().0) {
        *number = u64::from_le_bytes(*bytes);
    }
    numbers
}

impl Header {
    pub fn read(input: &mut impl Read) -> Result<Header, Fault> {
        let bytes = match read::<_, HEADER_BYTES>(input) {
            Err(Fault::CutOff) => return Err(Fault::NoHeader),
            bytes => bytes?,
        };
        let [mark, calls, own] = numbers::<3>(&bytes);
        if mark != MARK {
            return Err(Fault::NoRide);
        }
        Ok(Header {
            calls,
            own: own as usize,
        })
    }
}

impl Record {
    pub fn read(input: &mut impl Read, at: Moment) -> Result<Record, Fault> {
        let bytes = read::<_, RECORD_BYTES>(input)?;
        let (front, stored) = bytes.split_at(FRONT_BYTES);
        let [
            call,
            first,
            second,
            third,
            given,
            crumbs,
            line,
            first_place,
            first_word,
            second_place,
            second_word,
            number_place,
            number,
        ] = numbers::<13>(front);
        let Ok(call) = Call::try_from([call, first, second, third]) else {
            return Err(Fault::Unreadable(at));
        };
        Ok(Record {
            call,
            given: given as usize,
            crumbs_lent: crumbs as usize,
            line_lent: line as usize,
            replaced: Replaced {
                words: [
                    (first_place as usize, first_word),
                    (second_place as usize, second_word),
                ],
                number: (number_place as usize, float(low(number))),
            },
            stored: Answers(numbers::<ANSWERS>(stored)),
        })
    }
}

// So many bytes, at the front of a block. There are none where it has no room.
pub fn read_bytes<'a>(
    input: &mut impl Read,
    block: &'a mut [u8; BLOCK],
    count: usize,
) -> Result<&'a [u8], Fault>
    ensures { IfOk result (λ bytes. length bytes.now ≡ count) }
{
    if count > BLOCK {
        return Err(Fault::CutOff);
    }
    let bytes = &mut block[..count];
    if !fill(input, bytes)? {
        return Err(Fault::CutOff);
    }
    Ok(bytes)
}

// Refuses an input that goes on.
pub fn read_end(input: &mut impl Read) -> Result<(), Fault> {
    if fill(input, &mut [0u8; 1])? {
        return Err(Fault::MoreFollows);
    }
    Ok(())
}

#[cfg(test)]
mod tests {
    use super::*;
    use crate::comparing;

    // Three bytes, and the pattern of 1.0 behind them.
    #[test]
    fn reads_bytes_and_patterns(rt: HostRuntime) {
        let mut input: &[u8] = &[7, 8, 9, 0, 0, 0x80, 0x3f];
        let mut block = [0u8; BLOCK];
        let bytes = read_bytes(&mut input, &mut block, 3);
        assert!(rt;
            bytes.is_ok_and(|bytes| bytes == [7, 8, 9].as_slice()),
            "three bytes"
        );
        let at = Moment::End(0);
        let same = comparing::compare_numbers(&mut input, &mut block, at, "numbers", &[1.0]);
        assert!(rt; same.is_ok(), "a number");
    }
}
