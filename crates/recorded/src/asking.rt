// What the guide and the rebuild answer, told as numbers. What is not known is told as 0.

use crate::performing::State;
use door::answering;
use rebuild::Stage;
use records::calls::Question;
use records::telling::{Answers, Field};

const GUIDE: [Field; 10] = [
    Field::Mode,
    Field::GuideFollowing,
    Field::GuideCourse,
    Field::CourseNear,
    Field::DirectM,
    Field::TrackM,
    Field::OffM,
    Field::Bearing,
    Field::GuideHeadingKnown,
    Field::GuideHeading,
];

const COURSE_AHEAD: [Field; 5] = [
    Field::CourseAheadKnown,
    Field::CourseAheadEnd,
    Field::CourseAheadMatched,
    Field::CourseAheadEast,
    Field::CourseAheadNorth,
];

const ROUTE_HOME: [Field; 5] = [
    Field::RouteHomeKnown,
    Field::RouteHomeEnd,
    Field::RouteHomeMatched,
    Field::RouteHomeEast,
    Field::RouteHomeNorth,
];

// Every question but those that return a part of a buffer.
const ALL: [Question; 8] = [
    Question::Len,
    Question::Following,
    Question::FollowingCourse,
    Question::CourseAhead,
    Question::RouteHome,
    Question::Heading,
    Question::Guide,
    Question::WayBack,
];

// Each asks a question, tells the answer, and gives the number of the refusal.
impl State {
    fn len(&self, told: &mut Answers) -> u8 {
        let mut len = 0;
        let refused = answering::cittumay_len(&self.words, &self.numbers, &mut len);
        told.tell(Field::Len, len as u64);
        refused
    }

    // What is answered yes or no.
    fn flag<F: Fn(&[u64], &[f32], &mut u8) -> u8>(
        &self,
        asked: F,
        field: Field,
        told: &mut Answers,
    ) -> u8
        requires { F.IsAlwaysCallable asked }
    {
        let mut yes = 0;
        let refused = asked(&self.words, &self.numbers, &mut yes);
        told.tell(field, u64::from(yes));
        refused
    }

    // A way ahead.
    fn ahead<F: Fn(&[u64], &[f32], &mut u8, &mut usize, &mut u8, &mut f32, &mut f32) -> u8>(
        &self,
        asked: F,
        fields: [Field; 5],
        told: &mut Answers,
    ) -> u8
        requires { F.IsAlwaysCallable asked }
    {
        let mut known = 0;
        let mut end = 0;
        let mut matched = 0;
        let mut east = 0.0;
        let mut north = 0.0;
        let refused = asked(
            &self.words,
            &self.numbers,
            &mut known,
            &mut end,
            &mut matched,
            &mut east,
            &mut north,
        );
        let numbers = [
            u64::from(known),
            end as u64,
            u64::from(matched),
            u64::from(binary32::pattern(east)),
            u64::from(binary32::pattern(north)),
        ];
        for (field, number) in fields.iter().zip(numbers) {
            told.tell(*field, number);
        }
        refused
    }

    fn heading(&self, told: &mut Answers) -> u8 {
        let mut known = 0;
        let mut heading = 0;
        let refused = answering::cittumay_heading(
            &self.words,
            &self.numbers,
            &mut known,
            &mut heading,
        );
        told.tell(Field::HeadingKnown, u64::from(known));
        told.tell(Field::Heading, u64::from(heading));
        refused
    }

    // The guide, and its arrow where one is shown.
    fn guide(&self, told: &mut Answers) -> u8 {
        let mut shown = 0;
        let mut guide = [0u32; GUIDE.len()];
        let refused = answering::cittumay_guide(&self.words, &self.numbers, &mut shown, &mut guide);
        told.tell(Field::Shown, u64::from(shown));
        for (field, word) in GUIDE.iter().zip(guide) {
            told.tell(*field, u64::from(word));
        }
        if shown == 0 {
            return refused;
        }
        let mut arrow = 0;
        let without = answering::cittumay_arrow(&guide, &mut arrow);
        told.tell(Field::Arrow, u64::from(arrow));
        without
    }

    fn way_back(&self, crumbs: &[f32], told: &mut Answers) -> u8 {
        let mut known = 0;
        let mut direct = 0;
        let mut track = 0;
        let refused = answering::cittumay_way_back(
            &self.words,
            &self.numbers,
            crumbs,
            &mut known,
            &mut direct,
            &mut track,
        );
        told.tell(Field::WayBackKnown, u64::from(known));
        told.tell(Field::WayBackDirect, u64::from(direct));
        told.tell(Field::WayBackTrack, u64::from(track));
        refused
    }

    // How many crumbs a part of a buffer has.
    fn part<F: Fn(&[u64], &[f32], &[f32], &mut usize) -> u8>(
        &self,
        asked: F,
        buffer: &[f32],
        field: Field,
        told: &mut Answers,
    ) -> u8
        requires { F.IsAlwaysCallable asked }
    {
        let mut len = 0;
        let refused = asked(&self.words, &self.numbers, buffer, &mut len);
        told.tell(field, len as u64);
        refused
    }

    pub fn ask(&self, question: Question, crumbs: &[f32], line: &[f32], told: &mut Answers) -> u8 {
        match question {
            Question::Len => self.len(told),
            Question::Following => self.flag(answering::cittumay_following, Field::Following, told),
            Question::FollowingCourse => self.flag(
                answering::cittumay_following_course,
                Field::FollowingCourse,
                told,
            ),
            Question::CourseAhead => self.ahead(
                answering::cittumay_course_ahead,
                COURSE_AHEAD,
                told,
            ),
            Question::RouteHome => self.ahead(answering::cittumay_route_home, ROUTE_HOME, told),
            Question::Heading => self.heading(told),
            Question::Guide => self.guide(told),
            Question::WayBack => self.way_back(crumbs, told),
            Question::Crumbs => self.part(answering::cittumay_crumbs, crumbs, Field::Crumbs, told),
            Question::Course => self.part(answering::cittumay_course, line, Field::Course, told),
        }
    }

    // Both parts of a buffer. The first refusal ends it.
    pub fn ask_parts(&self, crumbs: &[f32], line: &[f32], told: &mut Answers) -> u8 {
        let refused = self.ask(Question::Crumbs, crumbs, line, told);
        if refused != 0 {
            return refused;
        }
        self.ask(Question::Course, crumbs, line, told)
    }

    // The crumbs that are held, none where that is refused.
    pub fn held<'a>(&self, crumbs: &'a [f32]) -> &'a [f32] {
        let mut len = 0;
        answering::cittumay_crumbs(&self.words, &self.numbers, crumbs, &mut len);
        crumbs::front(crumbs, len)
    }

    // What the guide and the rebuild answer behind a call. The first refusal ends the questions.
    pub fn tell_behind(&self, crumbs: &[f32], told: &mut Answers) {
        for question in ALL {
            let refused = self.ask(question, crumbs, &[], told);
            if refused != 0 {
                told.tell(Field::Behind, u64::from(refused));
                break;
            }
        }
        self.tell_rebuild(told);
    }

    // The rebuild's slot, clock and stage.
    fn tell_rebuild(&self, told: &mut Answers) {
        let Some(rebuild) = stored::load_rebuild(&self.rebuild) else {
            return;
        };
        told.tell(Field::Slot, rebuild.walk.slot as u64);
        told.tell(Field::Clock, rebuild.clock_ms);
        let Stage::Pending(last) = rebuild.stage else {
            return;
        };
        told.tell(Field::Pending, 1);
        told.tell(Field::UtcKnown, u64::from(last.is_some()));
        told.tell(Field::Utc, last.unwrap_or(0));
    }
}
