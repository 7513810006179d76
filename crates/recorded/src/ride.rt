// A ride's state and buffers, and its calls, each compared with what is stored.

use crate::performing::State;
use course::POINTS;
use records::calls::{Call, Change};
use records::faults::{Fault, Moment};
use records::telling::{Answers, Field};
use records::{BLOCK, Record, comparing};
use std::io::Read;

// The most numbers lent for crumbs: a refused buffer is one longer than the longest, and `thin` may be given room for
// 4,097 crumbs. The most lent as a line: room for a place more than a course has.
pub const MOST_CRUMBS: usize = crumbs::STRIDE * 4097;

const MOST_LINE: usize = crumbs::STRIDE * (POINTS + 1);

// Bytes of a point: latitude and longitude.
const POINT: usize = 8;

// Whether a call is given and lent no more than there is room for, and the end comes where it is due.
pub fn fits(record: &Record, at: Moment) -> bool {
    let given = record.given;
    let room = match record.call {
        Call::Change(Change::SetCourse) => given <= POINT * POINTS && given % POINT == 0,
        Call::Change(Change::Step { .. }) => given <= BLOCK,
        Call::Thin { size, .. } => given == 0 && size <= MOST_CRUMBS,
        _ => given == 0,
    };
    let is_end = matches!(record.call, Call::End);
    let due = matches!(at, Moment::End(_));
    room && is_end == due && record.crumbs_lent <= MOST_CRUMBS && record.line_lent <= MOST_LINE
}

// The first numbers of a buffer, as many as there are of `count`.
fn front(buffer: &[f32], count: usize) -> &[f32] {
    &buffer[..count.min(buffer.len())]
}

fn front_mut(buffer: &mut [f32], count: usize) -> &mut [f32] {
    let n = count.min(buffer.len());
    &mut buffer[..n]
}

// `own`: how many numbers the guide's own crumb buffer has. `thinned`: where held crumbs are thinned.
#[derive(Drop)]
pub struct Ride {
    own: usize,
    state: State,
    crumbs: [f32; MOST_CRUMBS],
    line: [f32; MOST_LINE],
    thinned: [f32; MOST_CRUMBS],
}

impl Ride {
    pub fn new(own: usize) -> Ride {
        Ride {
            own,
            state: State::new(),
            crumbs: [0.0; MOST_CRUMBS],
            line: [0.0; MOST_LINE],
            thinned: [0.0; MOST_CRUMBS],
        }
    }

    // Replays a call. What it is given, and what is stored behind it, is read to the block.
    pub fn replay(
        &mut self,
        input: &mut impl Read,
        block: &mut [u8; BLOCK],
        at: Moment,
        record: &Record,
    ) -> Result<(), Fault> {
        let given = records::read_bytes(input, block, record.given)?;
        let mut told = Answers::none();
        self.tell(record, given, &mut told);
        comparing::compare(at, &told, &record.stored)?;
        if matches!(record.call, Call::Thin { .. }) {
            return compare_parts(input, block, at, &told, &self.thinned, &self.line);
        }
        compare_parts(input, block, at, &told, &self.crumbs, &self.line)
    }

    // The state with what the record replaces.
    fn lent(&self, record: &Record) -> State {
        let mut state = self.state;
        state.replace(&record.replaced);
        state
    }

    // Performs a call that is given these bytes, and tells what it answers.
    fn tell(&mut self, record: &Record, given: &[u8], told: &mut Answers) {
        let mut lent = self.lent(record);
        let crumbs = front_mut(&mut self.crumbs, record.crumbs_lent);
        let line = front_mut(&mut self.line, record.line_lent);
        let refused = match record.call {
            Call::Change(change) => {
                let refused = lent.change(change, given, crumbs, line, told);
                self.state.keep(&lent, &record.replaced);
                self.state.tell_behind(front(&self.crumbs, self.own), told);
                refused
            }
            Call::CaughtUp { upper } => lent.caught_up(upper, told),
            Call::Ask(question) => lent.ask(question, crumbs, line, told),
            Call::Thin {
                size,
                len,
                tolerance,
            } => {
                let thinned = front_mut(&mut self.thinned, size);
                lent.thin(crumbs, thinned, len, tolerance, told)
            }
            Call::Dump | Call::End => lent.ask_parts(crumbs, line, told),
        };
        told.tell(Field::Refused, u64::from(refused));
    }
}

// Refuses crumbs and course told that are not those behind the record.
fn compare_parts(
    input: &mut impl Read,
    block: &mut [u8; BLOCK],
    at: Moment,
    told: &Answers,
    crumbs: &[f32],
    line: &[f32],
) -> Result<(), Fault> {
    let held = crumbs::front(crumbs, told.get(Field::Crumbs) as usize);
    comparing::compare_numbers(input, block, at, "crumbs", held)?;
    let course = crumbs::front(line, told.get(Field::Course) as usize);
    comparing::compare_numbers(input, block, at, "course", course)
}
