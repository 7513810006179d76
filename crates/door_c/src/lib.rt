// The door's functions as C calls them (`include/cittumay.h`): each export calls the function of its name in
// crate `door` and promises what that promises. The archive is `target/staticlib/libdoor.a`.
#![tactic(auto)]

pub mod answering;
pub mod calling;
pub mod rebuilding;
pub mod thinning;
