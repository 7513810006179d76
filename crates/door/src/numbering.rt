// Answers as numbers: the C interface answers the number of the question that refused a call, and 0 where none did.

ghost use Rattle.std.specs.Prelude.{◌≡◌};
ghost use Rattle.refusal.specs.Refusal.{asked};
ghost use Rattle.door.specs.Through.{no_state_with, values_of};
ghost use Rattle.door.specs.Answers.{flagged, itself};

use questions::counts;
use refusal::Refusal;

// Question 10: slices that hold no state.
pub const NO_STATE: u8 = Refusal::State as u8;

// The number where a crumb buffer of `size` numbers is lent: question 1 comes first.
pub fn no_state_with(size: usize) -> u8
    ensures { result ≡ no_state_with size }
{
    if !counts::question1(size) {
        return Refusal::CrumbBuffer.number();
    }
    NO_STATE
}

// The number of the question that refused a call, 0 where none did.
pub fn number_of(answer: Result<(), Refusal>) -> u8
    ensures { result ≡ asked answer }
{
    match answer {
        Ok(()) => 0,
        Err(refusal) => refusal.number(),
    }
}

// Writes what a call answers where no question refused it, and gives its number. An answer of several values is written by the call
// that lends them: its contract names each value.
pub fn put<T: Copy>(answer: Result<T, Refusal>, to: &mut T) -> u8
    ensures value { result ≡ asked answer }
    ensures written { to.new ≡ values_of itself answer to.old }
{
    match answer {
        Ok(value) => {
            *to = value;
            0
        }
        Err(refusal) => refusal.number(),
    }
}

// The same of a yes or no, as a flag.
pub fn put_flag(answer: Result<bool, Refusal>, yes: &mut u8) -> u8
    ensures value { result ≡ asked answer }
    ensures written { yes.new ≡ values_of flagged answer yes.old }
{
    put(answer.map(u8::from), yes)
}
