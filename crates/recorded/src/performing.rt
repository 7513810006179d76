// The calls that change a guide or a rebuild, performed through the door, and `thin`.

use course::POINTS;
use door::{calling, rebuilding, thinning};
use records::calls::Change;
use records::telling::{Answers, Field};
use records::{Replaced, low};
use stored::{NUMBERS, REBUILD_WORDS, WORDS};

// What the door is lent besides the buffers: a guide's words and numbers, and a rebuild's words.
#[derive(Clone, Copy)]
pub struct State {
    pub words: [u64; WORDS],
    pub numbers: [f32; NUMBERS],
    pub rebuild: [u64; REBUILD_WORDS],
}

impl State {
    // A guide that holds nothing, with a rebuild that has nothing to read.
    pub fn new() -> State {
        let mut rebuild = [0u64; REBUILD_WORDS];
        rebuilding::cittumay_rebuild_new(&mut rebuild, 0, 0);
        State {
            words: [0; WORDS],
            numbers: [0.0; NUMBERS],
            rebuild,
        }
    }

    pub fn replace(&mut self, replaced: &Replaced) {
        for (place, word) in replaced.words {
            if place < WORDS {
                self.words[place] = word;
            }
        }
        let (place, number) = replaced.number;
        if place < NUMBERS {
            self.numbers[place] = number;
        }
    }

    // Takes what a call left. Behind one that was lent another state, the guide has its own again.
    pub fn keep(&mut self, left: &State, replaced: &Replaced) {
        self.rebuild = left.rebuild;
        let [(first, _), (second, _)] = replaced.words;
        if first < WORDS || second < WORDS || replaced.number.0 < NUMBERS {
            return;
        }
        self.words = left.words;
        self.numbers = left.numbers;
    }

    // Performs a call, tells its event or flag, and gives its refusal's number. Long by what the calls are lent: each has one arm.
    pub fn change(
        &mut self,
        change: Change,
        given: &[u8],
        crumbs: &mut [f32],
        line: &mut [f32],
        told: &mut Answers,
    ) -> u8 {
        let words = &mut self.words;
        let numbers = &mut self.numbers;
        let rebuild = &mut self.rebuild;
        let mut answer = 0;
        let refused = match change {
            Change::New => calling::cittumay_new(words, numbers, crumbs),
            Change::Reset => calling::cittumay_reset(words, numbers),
            Change::Observe { fix, now_ms } => calling::cittumay_observe(
                words,
                numbers,
                crumbs,
                line,
                fix.lat,
                fix.lon,
                now_ms,
                &mut answer,
            ),
            Change::Missing { now_ms } => {
                calling::cittumay_observe_missing(words, numbers, crumbs, line, now_ms, &mut answer)
            }
            Change::Replay { fix, at_ms } => {
                calling::cittumay_replay(words, numbers, crumbs, fix.lat, fix.lon, at_ms)
            }
            Change::EndReplay => calling::cittumay_end_replay(words, numbers),
            Change::SetCourse => self.set_course(given, line),
            Change::SetAutoFollow { on } => {
                calling::cittumay_set_auto_follow(words, numbers, crumbs, u8::from(on))
            }
            Change::SetFollowing { on, now_ms } => calling::cittumay_set_following(
                words,
                numbers,
                crumbs,
                line,
                u8::from(on),
                now_ms,
                &mut answer,
            ),
            Change::Rebuild { recovered, upper } => {
                rebuilding::cittumay_rebuild_new(rebuild, recovered, upper)
            }
            Change::Step { upper, budget } => rebuilding::cittumay_rebuild_step(
                rebuild,
                words,
                numbers,
                crumbs,
                given,
                upper,
                budget,
                &mut answer,
            ),
            Change::Settle { utc } => rebuilding::cittumay_rebuild_settle(
                rebuild,
                words,
                numbers,
                u8::from(utc.is_some()),
                utc.unwrap_or(0),
            ),
        };
        told.tell(Field::Answer, u64::from(answer));
        refused
    }

    // From four bytes of latitude and four of longitude each. Two lists, and not one of points: the call lends two slices.
    fn set_course(&mut self, given: &[u8], line: &mut [f32]) -> u8 {
        let mut lats = [0i32; POINTS];
        let mut lons = [0i32; POINTS];
        let points = given.as_chunks::<8>().0;
        for ((bytes, lat), lon) in points.iter().zip(lats.iter_mut()).zip(lons.iter_mut()) {
            let point = u64::from_le_bytes(*bytes);
            *lat = low(point).cast_signed();
            *lon = low(point >> 32).cast_signed();
        }
        let count = points.len().min(POINTS);
        calling::cittumay_set_course(
            &mut self.words,
            &mut self.numbers,
            line,
            &lats[..count],
            &lons[..count],
        )
    }

    pub fn caught_up(&self, upper: usize, told: &mut Answers) -> u8 {
        let mut yes = 0;
        let refused = rebuilding::cittumay_rebuild_caught_up(&self.rebuild, upper, &mut yes);
        told.tell(Field::Answer, u64::from(yes));
        refused
    }

    // Thins the held crumbs, as many as there is room for, in a buffer of their own, with zeros behind them, and gives the number of the
    // refusal.
    pub fn thin(
        &self,
        crumbs: &[f32],
        thinned: &mut [f32],
        len: usize,
        tolerance: f32,
        told: &mut Answers,
    ) -> u8 {
        thinned.fill(0.0);
        for (number, held) in thinned.iter_mut().zip(self.held(crumbs)) {
            *number = *held;
        }
        let mut last = tolerance;
        let mut passes = 0;
        let mut refused = 0;
        let left = thinning::cittumay_thin(thinned, len, &mut last, &mut passes, &mut refused);
        if refused == 0 {
            told.tell(Field::Crumbs, left as u64);
            told.tell(Field::Tolerance, u64::from(binary32::pattern(last)));
            told.tell(Field::Passes, passes as u64);
        }
        refused
    }
}
