// The guide for C and Rust. Its state lives in two slices that the caller lends, words and numbers (crate
// `stored`), a rebuild's in words of its own. Each function `cittumay_..` does on that state what the call of
// its name does, and answers 0, or the number of the question that refused it; a refusal changes nothing that
// is lent. Slices that hold no state are refused with 10. A flag that comes in is yes unless it is 0. Crate
// `door_c` exports these functions under their names.
//
// They begin alike, by reading the state or else answering 10, and end by a number: C calls each by its name,
// with what that call lends, and an export is proved by itself.
//
// `calling` has the calls that change the guide, `answering` those that only answer, `rebuilding` those of a
// rebuild, `thinning` the thinning of a line by itself; `numbering` says how an answer becomes a number.
#![tactic(auto)]

pub mod answering;
pub mod calling;
mod numbering;
pub mod rebuilding;
pub mod thinning;
