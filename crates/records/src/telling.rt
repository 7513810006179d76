// What is told of a call: numbers, those that are not known 0.

pub const ANSWERS: usize = 42;

#[derive(Clone, Copy)]
pub enum Field {
    Refused,
    Answer,
    Behind,
    Shown,
    Mode,
    GuideFollowing,
    GuideCourse,
    CourseNear,
    DirectM,
    TrackM,
    OffM,
    Bearing,
    GuideHeadingKnown,
    GuideHeading,
    Arrow,
    Following,
    FollowingCourse,
    CourseAheadKnown,
    CourseAheadEnd,
    CourseAheadMatched,
    CourseAheadEast,
    CourseAheadNorth,
    RouteHomeKnown,
    RouteHomeEnd,
    RouteHomeMatched,
    RouteHomeEast,
    RouteHomeNorth,
    HeadingKnown,
    Heading,
    WayBackKnown,
    WayBackDirect,
    WayBackTrack,
    Len,
    Slot,
    Clock,
    Pending,
    UtcKnown,
    Utc,
    Tolerance,
    Passes,
    Crumbs,
    Course,
}

// The answers' names, in the order in which they are stored.
pub const FIELDS: [(Field, &str); ANSWERS] = [
    (Field::Refused, "refusal"),
    (Field::Answer, "answer"),
    (Field::Behind, "refusal behind it"),
    (Field::Shown, "guide shown"),
    (Field::Mode, "mode"),
    (Field::GuideFollowing, "guide's following"),
    (Field::GuideCourse, "guide's course"),
    (Field::CourseNear, "course_near"),
    (Field::DirectM, "direct_m"),
    (Field::TrackM, "track_m"),
    (Field::OffM, "off_m"),
    (Field::Bearing, "bearing"),
    (Field::GuideHeadingKnown, "whether the guide has a heading"),
    (Field::GuideHeading, "guide's heading"),
    (Field::Arrow, "arrow"),
    (Field::Following, "following"),
    (Field::FollowingCourse, "following_course"),
    (Field::CourseAheadKnown, "course_ahead known"),
    (Field::CourseAheadEnd, "course_ahead end"),
    (Field::CourseAheadMatched, "course_ahead matched"),
    (Field::CourseAheadEast, "course_ahead east"),
    (Field::CourseAheadNorth, "course_ahead north"),
    (Field::RouteHomeKnown, "route_home known"),
    (Field::RouteHomeEnd, "route_home end"),
    (Field::RouteHomeMatched, "route_home matched"),
    (Field::RouteHomeEast, "route_home east"),
    (Field::RouteHomeNorth, "route_home north"),
    (Field::HeadingKnown, "heading known"),
    (Field::Heading, "heading"),
    (Field::WayBackKnown, "way_back known"),
    (Field::WayBackDirect, "way_back direct"),
    (Field::WayBackTrack, "way_back track"),
    (Field::Len, "len"),
    (Field::Slot, "slot"),
    (Field::Clock, "clock"),
    (Field::Pending, "pending"),
    (Field::UtcKnown, "pending time known"),
    (Field::Utc, "pending time"),
    (Field::Tolerance, "tolerance"),
    (Field::Passes, "passes"),
    (Field::Crumbs, "count of crumbs"),
    (Field::Course, "count of the course"),
];

#[derive(Clone, Copy)]
pub struct Answers(pub(crate) [u64; ANSWERS]);

impl Answers {
    pub fn none() -> Answers {
        Answers([0; ANSWERS])
    }

    pub fn get(&self, field: Field) -> u64 {
        self.0[field as usize]
    }

    pub fn tell(&mut self, field: Field, number: u64) {
        self.0[field as usize] = number;
    }
}
