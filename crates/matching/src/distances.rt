// How far from the line that is followed a rider is off it, is on it again and leaves it, and how far ahead on it they are led.

// A rider further from the line than this is off it.
pub const OFF_M: f32 = 50.0;

// A rider this near the line, or nearer, is on it again.
pub const ON_M: f32 = 25.0;

// Following steers to the line this far ahead.
pub const LOOKAHEAD_M: f32 = 40.0;

// Following stops this far from the line, and a course this near can be followed.
pub const DROP_M: f32 = 500.0;
