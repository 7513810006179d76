// The guide's state, in groups. The crumb buffer and the course's line are lent beside it.

use lap::Lap;
use motion::Motion;
use plane::{Fix, Point};
use trail::Trail;

// Which line a follow is on.
#[derive(Clone, Copy, PartialEq, Eq)]
pub enum Line {
    Nothing,
    Breadcrumb,
    Course,
}

// In this order: C is told a mode's number.
#[derive(Clone, Copy, PartialEq, Eq)]
pub enum Mode {
    // Straight to the start.
    Direct,
    // Along the followed line, on it.
    Track,
    // Following, but off the line: back to it.
    OffTrack,
    // At the start.
    Arrived,
}

// What a fix changed, for a nudge. In this order: C is told an event's number.
#[derive(Clone, Copy, PartialEq, Eq)]
pub enum Event {
    Nothing,
    // Following started by itself.
    Following,
    // Left the line while following, or still off the breadcrumb a while later.
    OffTrack,
    // Back on the line.
    OnTrack,
    // So far off the line that following stopped.
    Dropped,
    Arrived,
    // At the end of the course.
    CourseEnd,
}

// The way back, as of the last fix.
#[derive(Clone, Copy)]
pub struct Guide {
    pub mode: Mode,
    // Following the breadcrumb back, or the course, whatever `mode` says now.
    pub following: bool,
    // Following the course, towards its end.
    pub course: bool,
    // Not following: the course is loaded and near, so the pad follows it rather than the breadcrumb.
    pub course_near: bool,
    // Straight to the start, or to the course's end while following it.
    pub direct_m: u32,
    // Back along the breadcrumb, or on along the course, from here.
    pub track_m: u32,
    // From the line, while following.
    pub off_m: u32,
    // Where to ride: to the start, or to the line ahead.
    pub bearing: u16,
    // The way the rider is riding, while moving.
    pub heading: Option<u16>,
}

// The way on: the followed line's first `end` points, and then the point where the rider is, if matched yet.
#[derive(Clone, Copy)]
pub struct Ahead {
    pub end: usize,
    pub point: Option<Point>,
}

// Metres straight to the start, and back over the track.
#[derive(Clone, Copy)]
pub struct Back {
    pub direct: u32,
    pub track: u32,
}

// The ride's first fix, from which places are counted, and metres per 1e-7 degree of longitude there.
#[derive(Clone, Copy)]
pub struct Frame {
    pub origin: Option<Fix>,
    pub east_per_e7: f32,
}

#[derive(Clone, Copy)]
pub struct Course {
    pub line_len: usize,
    // Loaded, but waits for the ride's first fix to be placed.
    pub unplaced: bool,
    // Off for the rest of the ride: dropped, ended or stopped.
    pub held: bool,
    // Fixes in a row riding along the course, at its segment `join_end`.
    pub join_fixes: u8,
    pub join_end: usize,
    // Metres to the course's end where the rider was last matched, and at the furthest.
    pub along: f32,
    pub reached: f32,
    // The fix last matched to the course, until the fix is lost.
    pub fix: Option<Point>,
}

#[derive(Clone, Copy)]
pub struct Follow {
    pub line: Line,
    // The segment last matched while following.
    pub segment: usize,
    // Where on the line the rider last was while following.
    pub matched: Option<Point>,
    pub off: bool,
    pub reminded_ms: u64,
}

#[derive(Clone, Copy)]
pub struct Homing {
    pub trail: Trail,
    // The places that wait, beside the counts of `Trail`.
    pub window: [f32; trail::NUMBERS],
    pub frame: Frame,
    // The fix last acted on.
    pub fed: Option<Fix>,
    pub here: Option<Point>,
    pub here_ms: u64,
    pub motion: Motion,
    pub follow: Follow,
    pub course: Course,
    // Riding back along the breadcrumb, or along the course, starts following by itself.
    pub auto_follow: bool,
    pub arrived: bool,
    pub lap: Lap,
    pub updated_ms: u64,
    pub guide: Option<Guide>,
}
