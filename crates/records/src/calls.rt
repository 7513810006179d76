// The calls of a stored ride.

use crate::{float, low};
use plane::Fix;

// A call that may change the guide or the rebuild.
#[derive(Clone, Copy)]
pub enum Change {
    New,
    Reset,
    Observe { fix: Fix, now_ms: u64 },
    Missing { now_ms: u64 },
    Replay { fix: Fix, at_ms: u64 },
    EndReplay,
    SetCourse,
    SetAutoFollow { on: bool },
    SetFollowing { on: bool, now_ms: u64 },
    Rebuild { recovered: u32, upper: usize },
    Step { upper: usize, budget: usize },
    Settle { utc: Option<u64> },
}

#[derive(Clone, Copy)]
pub enum Question {
    Len,
    Following,
    FollowingCourse,
    CourseAhead,
    RouteHome,
    Heading,
    Guide,
    WayBack,
    Crumbs,
    Course,
}

#[derive(Clone, Copy)]
pub enum Call {
    Change(Change),
    CaughtUp {
        upper: usize,
    },
    // Of the held crumbs, in a buffer of this size.
    Thin {
        size: usize,
        len: usize,
        tolerance: f32,
    },
    Ask(Question),
    // Both tell crumbs and course.
    Dump,
    End,
}

// No call has this number.
#[derive(Clone, Copy, Debug)]
pub struct UnknownCall(pub u64);

// Two's complement in the low four bytes.
fn fix_of(lat: u64, lon: u64) -> Fix {
    Fix {
        lat: low(lat).cast_signed(),
        lon: low(lon).cast_signed(),
    }
}

fn change_of([call, first, second, third]: [u64; 4]) -> Option<Change> {
    Some(match call {
        0 => Change::New,
        1 => Change::Reset,
        2 => Change::Observe {
            fix: fix_of(first, second),
            now_ms: third,
        },
        3 => Change::Missing { now_ms: third },
        4 => Change::Replay {
            fix: fix_of(first, second),
            at_ms: third,
        },
        5 => Change::EndReplay,
        6 => Change::SetCourse,
        7 => Change::SetAutoFollow { on: first != 0 },
        8 => Change::SetFollowing {
            on: first != 0,
            now_ms: third,
        },
        9 => Change::Rebuild {
            recovered: low(first),
            upper: second as usize,
        },
        10 => Change::Step {
            upper: first as usize,
            budget: second as usize,
        },
        11 => Change::Settle {
            utc: (first != 0).then_some(second),
        },
        _ => return None,
    })
}

fn question_of(call: u64) -> Option<Question> {
    Some(match call {
        14 => Question::Len,
        15 => Question::Following,
        16 => Question::FollowingCourse,
        17 => Question::CourseAhead,
        18 => Question::RouteHome,
        19 => Question::Heading,
        20 => Question::Guide,
        21 => Question::WayBack,
        22 => Question::Crumbs,
        23 => Question::Course,
        _ => return None,
    })
}

// A call's number, and its three numbers.
impl TryFrom<[u64; 4]> for Call {
    type Error = UnknownCall;

    fn try_from(numbers: [u64; 4]) -> Result<Call, UnknownCall> {
        let [call, first, second, third] = numbers;
        match call {
            12 => Ok(Call::CaughtUp {
                upper: first as usize,
            }),
            13 => Ok(Call::Thin {
                size: first as usize,
                len: second as usize,
                tolerance: float(low(third)),
            }),
            24 => Ok(Call::Dump),
            25 => Ok(Call::End),
            _ => change_of(numbers)
                .map(Call::Change)
                .or(question_of(call).map(Call::Ask))
                .ok_or(UnknownCall(call)),
        }
    }
}
