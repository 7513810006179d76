// Lists of calls, performed one after the other by a new guide, and what holds of the guide after them.
#![tactic(auto)]

ghost use Rattle.std.specs.Prelude.{◌≡◌, true, length};
ghost use Rattle.calls.specs.Promises.{Called};
ghost use Rattle.ride.specs.Script.{has_room, call_of, written, pointed};
ghost use Rattle.ride.specs.Promises.{Rides};
ghost use Rattle.ride.specs.Inner.{Performs};

use plane::Fix;
use refusal::Refusal;
use state::Homing;

// `records::calls` lists the calls too, as a file has them: by numbers, with their lists beside them. Here a call lends its lists.

// A call that only answers.
#[derive(Clone, Copy)]
pub enum Query<'a> {
    Len,
    Following,
    FollowingCourse,
    Course { line: &'a [f32] },
    CourseAhead,
    Crumbs,
    WayBack,
    Heading,
    RouteHome,
    Guide,
}

// A call with its arguments, the line that it is lent among them. Latitudes and longitudes are two slices, as the C interface lends them.
#[derive(Clone, Copy)]
pub enum Call<'a> {
    Ask(Query<'a>),
    Reset,
    EndReplay,
    SetCourse {
        line: &'a [f32],
        lats: &'a [i32],
        lons: &'a [i32],
    },
    SetAutoFollow(bool),
    Observe {
        line: &'a [f32],
        place: Option<Fix>,
        now_ms: u64,
    },
    Replay {
        fix: Fix,
        at_ms: u64,
    },
    SetFollowing {
        line: &'a [f32],
        follow: bool,
        now_ms: u64,
    },
}

// ---- one call; its answer is dropped

// A call that only answers.
fn ask(h: &Homing, crumbs: &[f32], query: Query<'_>) {
    match query {
        Query::Len => {
            let _ = answers::len(h);
        }
        Query::Following => {
            let _ = answers::following(h);
        }
        Query::FollowingCourse => {
            let _ = answers::following_course(h);
        }
        Query::Course { line } => {
            let _ = answers::course(h, line);
        }
        Query::CourseAhead => {
            let _ = answers::course_ahead(h);
        }
        Query::Crumbs => {
            let _ = answers::crumbs(h, crumbs);
        }
        Query::WayBack => {
            let _ = answers::way_back(h, crumbs);
        }
        Query::Heading => {
            let _ = answers::heading(h);
        }
        Query::RouteHome => {
            let _ = answers::route_home(h);
        }
        Query::Guide => {
            let _ = answers::guide(h);
        }
    }
}

// Whether a working line of `room` numbers has room for a copy of the line that the call writes.
fn has_room(call: &Call<'_>, room: usize) -> bool
    ensures { result ≡ has_room room call.now }
{
    match *call {
        Call::SetCourse { line, .. } => line.len() <= room,
        _ => true,
    }
}

// The call that writes its line is lent a copy of it, in front of `working`.
fn step(h: &mut Homing, crumbs: &mut [f32], working: &mut [f32], call: &Call<'_>)
    requires { has_room (length working.old) call.now ≡ true }
    ensures { Called (call_of call.now) h.old crumbs.old h.new crumbs.new }
{
    match *call {
        Call::Ask(query) => {
            ask(h, crumbs, query);
        }
        Call::Reset => {
            let _ = homing::reset(h);
        }
        Call::EndReplay => {
            let _ = homing::end_replay(h);
        }
        Call::SetCourse { line, lats, lons } => {
            let copy = &mut working[..line.len()];
            copy.copy_from_slice(line);
            let _ = homing::set_course(h, copy, lats, lons);
        }
        Call::SetAutoFollow(on) => {
            let _ = homing::set_auto_follow(h, crumbs, on);
        }
        Call::Observe {
            line,
            place,
            now_ms,
        } => {
            let _ = homing::observe(h, crumbs, line, place, now_ms);
        }
        Call::Replay { fix, at_ms } => {
            let _ = homing::replay(h, crumbs, fix, at_ms);
        }
        Call::SetFollowing {
            line,
            follow,
            now_ms,
        } => {
            let _ = homing::set_following(h, crumbs, line, follow, now_ms);
        }
    }
}

// ---- the calls

// The calls one after the other, by reference: each takes 8 bytes of an address where a call takes 56, so more of them can be given.
fn perform(h: &mut Homing, crumbs: &mut [f32], working: &mut [f32], calls: &[&Call<'_>])
    ensures { Performs (written (length working.old) (pointed calls.now)) h.old crumbs.old h.new crumbs.new }
{
    for call in calls {
        if !has_room(call, working.len()) {
            return;
        }
        step(h, crumbs, working, call);
    }
}

// A new guide on the crumb buffer performs the calls, or none where the buffer is refused. `working` is for the line of a call that writes
// it, and as long as a line may be.
pub fn ride(
    crumbs: &mut [f32],
    working: &mut [f32],
    calls: &[&Call<'_>],
) -> (Homing, Result<(), Refusal>)
    ensures { Rides (written (length working.old) (pointed calls.now)) crumbs.old working.old result.0 result.1 crumbs.new working.new }
{
    let (mut h, answer) = homing::new(crumbs);
    if answer.is_err() {
        return (h, answer);
    }
    perform(&mut h, crumbs, working, calls);
    (h, answer)
}
