// What is told held to what is stored.

use crate::BLOCK;
use crate::faults::{Fault, Moment, What};
use crate::telling::{Answers, FIELDS};
use std::io::Read;

// Refuses answers that are not those stored.
pub fn compare(at: Moment, told: &Answers, stored: &Answers) -> Result<(), Fault> {
    for (field, name) in FIELDS {
        let told = told.get(field);
        let stored = stored.get(field);
        if told != stored {
            let what = What::Answer(name);
            return Err(Fault::Unlike {
                at,
                what,
                told,
                stored,
            });
        }
    }
    Ok(())
}

// Refuses numbers whose patterns are not those that come next in the input, which are read to the block.
pub fn compare_numbers(
    input: &mut impl Read,
    block: &mut [u8; BLOCK],
    at: Moment,
    part: &'static str,
    numbers: &[f32],
) -> Result<(), Fault> {
    let patterns = crate::read_bytes(input, block, 4 * numbers.len())?;
    for (k, (number, stored)) in numbers.iter().zip(patterns.as_chunks::<4>().0).enumerate() {
        let told = binary32::pattern(*number);
        let stored = u32::from_le_bytes(*stored);
        if told != stored {
            let what = What::Number(part, k);
            return Err(Fault::Unlike {
                at,
                what,
                told: u64::from(told),
                stored: u64::from(stored),
            });
        }
    }
    Ok(())
}
