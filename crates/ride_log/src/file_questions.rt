// The questions put to a chain file and to its entries. Each `asks` refuses by the first one that says no.

ghost use Rattle.std.specs.Prelude.{◌≡◌, ◌≤◌};
ghost use Rattle.refusal.specs.Refusal.{asked};
ghost use Rattle.calls.specs.Calls.{asks_place};
ghost use Rattle.ride_log.specs.Entry.{record_count, count_of, entry_at, used, chain};
ghost use Rattle.ride_log.specs.Questions.{question6 as question6_of, question7 as question7_of, question8 as question8_of, asks_samples};
ghost use Rattle.ride_log.specs.Questions.{asks_entry, asks_record, asks_records, asks_chain, asks_file};

use crate::{Chain, RECORD};
use plane::Fix;
use questions::globe;
use refusal::Refusal;

// The samples of an entry.
const SAMPLES: u8 = 4;

// The most records of a file.
pub const MOST: usize = 682;

// ---- the questions put to an entry

#[tactic(auto, unfolding(calls::specs::Calls::asks_place))]
fn asks_place(place: Option<Fix>) -> Result<(), Refusal>
    ensures { asked result ≡ asks_place place }
{
    place.map_or(Ok(()), globe::asks_fix)
}

// The places of the samples that are used. A count of at most 4, asked before, keeps each sample within its record.
fn asks_used(file: &[u8], index: u32, count: u8) -> Result<(), Refusal>
    requires { (count ≡ count_of file.now index) × (count ≤ 4) }
    ensures { asked result ≡ asks_samples (used (entry_at file.now index)) }
{
    for k in 0..count {
        let place = crate::place_of(file, index, k);
        asks_place(place)?;
    }
    Ok(())
}

// An entry of any kind is asked about its count, then about its places.
#[tactic(auto, unfolding(crate::specs::Questions::asks_entry, crate::specs::Entry::entry_at))]
fn asks_entry(file: &[u8], index: u32) -> Result<(), Refusal>
    ensures { asked result ≡ asks_entry (entry_at file.now index) }
{
    let count = crate::count_of(file, index);
    Refusal::SampleCount.unless(count <= SAMPLES)?;
    asks_used(file, index, count)
}

// ---- the questions put to a file

#[tactic(auto, unfolding(crate::specs::Questions::question6))]
fn question6(size: usize) -> bool
    ensures { result ≡ question6_of size }
{
    let count = size / RECORD;
    (size % RECORD == 0) & (1 <= count) & (count <= MOST)
}

#[tactic(auto, unfolding(crate::specs::Questions::question8))]
fn question8(kind: u8) -> bool
    ensures { result ≡ question8_of kind }
{
    (1 <= kind) & (kind <= 7)
}

// Whether every next met is below the record count, and none is reached twice. A chain of as many
// records as there are has reached one of them twice, and one that ends has not.
fn question7(file: &[u8], count: u32) -> bool
    requires { (count ≡ record_count file.now) × (1 ≤ count) }
    ensures { result ≡ question7_of file.now }
{
    let mut records = Chain::of(file);
    while let Some(index) = records.next() {
        if count <= index {
            return false;
        }
    }
    0 < records.left
}

#[tactic(auto, unfolding(crate::specs::Questions::asks_record))]
fn asks_record(file: &[u8], index: u32) -> Result<(), Refusal>
    ensures { asked result ≡ asks_record file.now index }
{
    Refusal::EntryKind.unless(question8(crate::kind_number(file, index)))?;
    asks_entry(file, index)
}

// The records along the chain, in its order.
fn asks_records(file: &[u8]) -> Result<(), Refusal>
    ensures { asked result ≡ asks_records file.now (chain file.now) }
{
    for index in Chain::of(file) {
        asks_record(file, index)?;
    }
    Ok(())
}

// The chain is judged whole.
#[tactic(auto, unfolding(crate::specs::Questions::asks_chain, crate::specs::Questions::question6, crate::specs::Entry::record_count))]
fn asks_chain(file: &[u8]) -> Result<(), Refusal>
    ensures { asked result ≡ asks_chain file.now }
{
    let size = file.len();
    Refusal::FileLength.unless(question6(size))?;
    let count = (size / RECORD) as u32;
    Refusal::Chain.unless(question7(file, count))
}

// The chain, then its entries in order.
#[tactic(auto, unfolding(crate::specs::Questions::asks_file))]
pub fn asks_file(file: &[u8]) -> Result<(), Refusal>
    ensures { asked result ≡ asks_file file.now }
{
    asks_chain(file)?;
    asks_records(file)
}
