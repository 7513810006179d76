// Why a stored ride is not replayed to its end.

use std::{fmt, io};

// A call, numbered from 0, or the end of so many calls.
#[derive(Clone, Copy)]
pub enum Moment {
    Call(u64),
    End(u64),
}

// How many calls come before.
impl fmt::Display for Moment {
    fn fmt<W: fmt::Write>(&self, f: &mut fmt::Formatter<W>) -> fmt::Result {
        let (Moment::Call(before) | Moment::End(before)) = self;
        write!(f, "{before}")
    }
}

// Which answer is another than the one stored.
#[derive(Clone, Copy)]
pub enum What {
    Answer(&'static str),
    Number(&'static str, usize),
}

impl fmt::Display for What {
    fn fmt<W: fmt::Write>(&self, f: &mut fmt::Formatter<W>) -> fmt::Result {
        match self {
            What::Answer(name) => write!(f, "{name}"),
            What::Number(part, k) => write!(f, "{part}, number {k}"),
        }
    }
}

#[derive(Drop)]
pub enum Fault {
    Io(io::Error),
    NoHeader,
    NoRide,
    LargeBuffer,
    CutOff,
    // A record that is not of the format.
    Unreadable(Moment),
    MoreFollows,
    Unlike {
        at: Moment,
        what: What,
        told: u64,
        stored: u64,
    },
}

impl fmt::Display for Fault {
    fn fmt<W: fmt::Write>(&self, f: &mut fmt::Formatter<W>) -> fmt::Result {
        match self {
            Fault::Io(e) => write!(f, "error: {e}"),
            Fault::NoHeader => f.write_str("error: there is no header"),
            Fault::NoRide => f.write_str("error: this is no stored ride"),
            Fault::LargeBuffer => f.write_str("error: no guide has so large a buffer"),
            Fault::CutOff => f.write_str("error: the input ends within a call"),
            Fault::Unreadable(at) => write!(f, "error: behind {at} calls stands no record"),
            Fault::MoreFollows => f.write_str("error: more follows the end"),
            Fault::Unlike {
                at,
                what,
                told,
                stored,
            } => {
                write!(f, "{at} calls agree, ")?;
                match at {
                    Moment::Call(before) => {
                        write!(f, "call {}", before.saturating_add(1))?;
                    }
                    Moment::End(_) => f.write_str("the end")?,
                }
                write!(f, " does not: {what} is {told}, stored {stored}")
            }
        }
    }
}

impl From<io::Error> for Fault {
    fn from(e: io::Error) -> Fault {
        Fault::Io(e)
    }
}
