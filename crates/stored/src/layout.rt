// Where each field of a guide's state stands among its words and its numbers, and each of a rebuild's among its words: the tables in
// specs/Stored.antt and specs/Rebuilt.antt. The comparison reads this file too.

// ---- a guide's words

pub const MARK: usize = 0;

pub const LEN: usize = 1;

pub const WINDOW_LEN: usize = 2;

pub const RETRACE: usize = 3;

pub const RETRACE_LEN: usize = 4;

// Three words, as every place.
pub const ORIGIN: usize = 5;

pub const FED: usize = 8;

pub const HERE: usize = 11;

pub const HERE_MS: usize = 12;

pub const FROM: usize = 13;

// The heading itself is the word behind it.
pub const HEADING_KNOWN: usize = 14;

pub const HEADING_MS: usize = 16;

// 0, or 1 for the breadcrumb, or 2 for the course.
pub const LINE: usize = 17;

pub const SEGMENT: usize = 18;

pub const MATCHED: usize = 19;

pub const OFF: usize = 20;

pub const REMINDED_MS: usize = 21;

pub const LINE_LEN: usize = 22;

pub const UNPLACED: usize = 23;

pub const HELD: usize = 24;

pub const JOIN_FIXES: usize = 25;

pub const JOIN_END: usize = 26;

pub const FIX: usize = 27;

pub const AUTO_FOLLOW: usize = 28;

pub const ARRIVED: usize = 29;

pub const PASS: usize = 30;

pub const START: usize = 31;

pub const PASSED: usize = 32;

pub const UPDATED_MS: usize = 33;

// Whether there is a guide, whose ten words follow.
pub const SHOWN: usize = 34;

pub const GUIDE: usize = 35;

// ---- its numbers

pub const TOLERANCE: usize = 0;

pub const EAST_PER_E7: usize = 1;

// Two numbers, as every point.
pub const HERE_POINT: usize = 2;

pub const FROM_POINT: usize = 4;

pub const MATCHED_POINT: usize = 6;

pub const COURSE_ALONG: usize = 8;

pub const COURSE_REACHED: usize = 9;

pub const FIX_POINT: usize = 10;

pub const START_POINT: usize = 12;

pub const WINDOW: usize = 14;

// ---- a rebuild's words

pub const RECOVERED: usize = 1;

pub const SLOT: usize = 2;

pub const PENDING: usize = 3;

// The time itself is the word behind it.
pub const UTC_KNOWN: usize = 4;

pub const CLOCK: usize = 6;
