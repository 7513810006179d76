// Replays a stored ride through the door, and compares what the guide answers with what the Rust answered. Standard
// input holds, all little-endian,
// - a header of three numbers of eight bytes: the letters RECORDED, how many calls follow, and how many numbers the
//   guide's own crumb buffer has;
// - for each call a record of 55 numbers of eight bytes: which call it is and its three numbers, how many bytes behind
//   the record it is given, how many numbers it is lent for crumbs and as the line, what of its state is replaced, and
//   its 42 stored answers (the crate `records` reads them, oracle/FORMATS.md says what they are);
// - behind a record what its call is given, then as patterns of four bytes the crumbs and the points of the course that
//   the record counts among the answers;
// - last a record of the same form for the ride's end, at which all crumbs and the course are told.
// The file `stdin` was written by the program `recorded` of `oracle`, which performs the ride by the handed-over Rust.
#![tactic(auto)]

mod asking;
mod performing;
mod ride;

use records::faults::{Fault, Moment};
use records::{BLOCK, Header, Record};
use ride::{MOST_CRUMBS, Ride};
use std::io;
use std::io::Read;

// Replays a call, or the ride's end. What it is given is read to the block.
fn replay(
    input: &mut impl Read,
    block: &mut [u8; BLOCK],
    ride: &mut Ride,
    at: Moment,
) -> Result<(), Fault> {
    let record = Record::read(input, at)?;
    if !ride::fits(&record, at) {
        return Err(Fault::Unreadable(at));
    }
    ride.replay(input, block, at, &record)
}

// Replays a whole ride. How many calls it has, which all agree.
fn replay_ride(input: &mut impl Read) -> Result<u64, Fault> {
    let header = Header::read(input)?;
    if header.own > MOST_CRUMBS {
        return Err(Fault::LargeBuffer);
    }
    let mut block = [0u8; BLOCK];
    let mut ride = Ride::new(header.own);
    for number in 0..header.calls {
        replay(input, &mut block, &mut ride, Moment::Call(number))?;
    }
    replay(input, &mut block, &mut ride, Moment::End(header.calls))?;
    records::read_end(input)?;
    Ok(header.calls)
}

fn main(rt: HostRuntime) -> io::Result<()> {
    match replay_ride(&mut rt.reader()) {
        Ok(calls) => println!(rt; "{calls} calls agree"),
        Err(Fault::Io(e)) => Err(e),
        Err(fault) => println!(rt; "{fault}"),
    }
}
