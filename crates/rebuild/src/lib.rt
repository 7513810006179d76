// After a restart: the breadcrumb and the start of a ride the restart cut short, read back from the log
// for the ride that carries on from it.
//
// The recovered ride's fixes are replayed, then those of the later ride. The later ride's first fix
// decides whether it carries on: at most `CONTINUE_MS` from the recovered ride's last fix it does; farther
// apart, or without the time of either, the breadcrumb starts again from it.
#![tactic(auto)]

ghost use Rattle.std.specs.Prelude.{◌≡◌, ◌≤◌, length};
ghost use Rattle.trail.specs.View as trail;
ghost use Rattle.ride_log.specs.Entry.{used};
ghost use Rattle.rebuild.specs.Rebuild.{new_rebuild, ticked, carries_on, skips, visit_fix, visit_sample, is_later, visit_samples};
ghost use Rattle.rebuild.specs.Rebuild.{visit, caught_up, is_decided, settle};
ghost use Rattle.rebuild.specs.Inner.{starts_anew, stage_behind, Begins, heard_makes};
ghost use Rattle.rebuild.specs.View.{Makes, Settles};

use plane::Fix;
use ride_log::{Entry, Kind, Sample};
use state::Homing;

// The later ride carries on if its first fix is this soon after the recovered ride's last.
const CONTINUE_MS: u64 = 30 * 60_000;
// The log holds a sample a second while recording.
const SAMPLE_MS: u64 = 1_000;

// An Option of an Option would be no plainer: its two Nones would not say what is missing.
#[derive(Clone, Copy)]
pub enum Stage {
    // Before the later ride's first fix: when the recovered ride's latest fix was, if known.
    Pending(Option<u64>),
    // That fix came: the breadcrumb is settled.
    Decided,
}

#[tactic(auto, unfolding(crate::specs::Rebuild::is_decided))]
pub fn is_decided(stage: Stage) -> bool
    ensures { result ≡ is_decided stage }
{
    matches!(stage, Stage::Decided)
}

// How far the log is read: the next slot.
#[derive(Clone, Copy)]
pub struct Walk {
    pub slot: usize,
}

#[derive(Clone, Copy)]
pub struct Rebuild {
    pub recovered: u32,
    pub walk: Walk,
    pub stage: Stage,
    // Time through the replayed samples, for the heading.
    pub clock_ms: u64,
}

// What a sample gives to replay: its fix, and whether the guide starts anew before it.
#[derive(Clone, Copy)]
struct Heard {
    anew: bool,
    fix: Fix,
}

// Read ride `recovered` and the ride after it back from a log whose slots below `_upper` are written. The walk begins at slot 0,
// however many are: `_upper` is there because the C interface and the call's rule have it.
#[tactic(auto, unfolding(crate::specs::Rebuild::new_rebuild))]
pub fn new(recovered: u32, _upper: usize) -> Rebuild
    ensures { result ≡ new_rebuild recovered }
{
    Rebuild {
        recovered,
        walk: Walk { slot: 0 },
        stage: Stage::Pending(None),
        clock_ms: 0,
    }
}

// ---- whether the later ride carries on

#[tactic(auto, unfolding(crate::specs::Rebuild::carries_on))]
fn carries_on(last: Option<u64>, first: Option<u64>) -> bool
    ensures { result ≡ carries_on last first }
{
    last.zip(first)
        .is_some_and(|(a, b)| a.abs_diff(b) <= CONTINUE_MS)
}

// Whether a fix makes the breadcrumb start again: the later ride's first, where that ride does not
// carry on.
#[tactic(auto, unfolding(crate::specs::Inner::starts_anew))]
fn starts_anew(stage: Stage, later: bool, utc: Option<u64>) -> bool
    ensures { result ≡ starts_anew stage later utc }
{
    match stage {
        Stage::Pending(last) => later && !carries_on(last, utc),
        Stage::Decided => false,
    }
}

// The guide starts anew, or nothing is done to it.
fn reset_if(h: &mut Homing, anew: bool)
    ensures { Begins anew h.old h.new }
{
    if anew {
        steer::reset(h);
    }
}

// Settle the breadcrumb on a live fix at `utc` instead of the later ride's first one in the log, which a
// paused ride or a failing medium may never write.
pub fn settle(r: &mut Rebuild, h: &mut Homing, utc: Option<u64>)
    ensures { Settles (settle utc r.old) h.old r.new h.new }
{
    reset_if(h, starts_anew(r.stage, true, utc));
    r.stage = Stage::Decided;
}

// ---- a sample

#[tactic(auto, unfolding(crate::specs::Rebuild::ticked))]
fn tick(r: &mut Rebuild)
    ensures { r.new ≡ ticked r.old }
{
    r.clock_ms = r.clock_ms.saturating_add(SAMPLE_MS);
}

// Once the breadcrumb is settled the recovered ride's fixes are read no more.
#[tactic(auto, unfolding(crate::specs::Rebuild::skips, crate::specs::Rebuild::is_decided))]
fn skips(stage: Stage, later: bool) -> bool
    ensures { result ≡ skips stage later }
{
    is_decided(stage) & !later
}

// The stage behind a fix.
#[tactic(auto, unfolding(crate::specs::Inner::stage_behind))]
fn stage_behind(stage: Stage, later: bool, utc: Option<u64>) -> Stage
    ensures { result ≡ stage_behind stage later utc }
{
    match stage {
        Stage::Pending(last) if !later => Stage::Pending(utc.or(last)),
        _ => Stage::Decided,
    }
}

// A fix of the recovered ride, or of the later one.
fn hear_fix(r: &mut Rebuild, later: bool, utc: Option<u64>, fix: Fix) -> Option<Heard>
    ensures { visit_fix fix later utc r.old ≡ heard_makes result r.new }
{
    if skips(r.stage, later) {
        return None;
    }
    let anew = starts_anew(r.stage, later, utc);
    r.stage = stage_behind(r.stage, later, utc);
    Some(Heard { anew, fix })
}

// The clock goes on with each sample, located or not.
#[tactic(auto, unfolding(crate::specs::Rebuild::visit_sample, crate::specs::Rebuild::visit_place, crate::specs::Inner::heard_makes))]
fn hear(r: &mut Rebuild, later: bool, sample: Sample) -> Option<Heard>
    ensures { visit_sample later sample r.old ≡ heard_makes result r.new }
{
    tick(r);
    let fix = sample.place?;
    hear_fix(r, later, sample.utc, fix)
}

fn visit_sample(r: &mut Rebuild, h: &mut Homing, crumbs: &mut [f32], later: bool, sample: Sample)
    requires { trail.TrailFit h.old.trail (length crumbs.old) }
    ensures { Makes (visit_sample later sample r.old) h.old crumbs.old r.new h.new crumbs.new }
{
    if let Some(x) = hear(r, later, sample) {
        reset_if(h, x.anew);
        fix::replay(h, crumbs, x.fix, r.clock_ms);
    }
}

// ---- an entry

// Of the four samples the first `count`, which question 5 holds to 4.
fn visit_samples(r: &mut Rebuild, h: &mut Homing, crumbs: &mut [f32], e: Entry)
    requires trail_fit { trail.TrailFit h.old.trail (length crumbs.old) }
    requires count_bound { e.count ≤ 4 }
    ensures { Makes (visit_samples (is_later e r.old) (used e) r.old) h.old crumbs.old r.new h.new crumbs.new }
{
    let later = e.ride != r.recovered;
    for sample in &e.samples[..usize::from(e.count)] {
        visit_sample(r, h, crumbs, later, *sample);
    }
}

// Only an entry of samples is read.
pub fn visit(r: &mut Rebuild, h: &mut Homing, crumbs: &mut [f32], e: Entry)
    requires trail_fit { trail.TrailFit h.old.trail (length crumbs.old) }
    requires count_bound { e.count ≤ 4 }
    ensures { Makes (visit e r.old) h.old crumbs.old r.new h.new crumbs.new }
{
    if let Kind::Samples = e.kind {
        visit_samples(r, h, crumbs, e);
    }
}

// ---- the slots

// Every slot below `upper` is read.
#[tactic(auto, unfolding(crate::specs::Rebuild::caught_up))]
pub fn caught_up(r: Rebuild, upper: usize) -> bool
    ensures { result ≡ caught_up upper r }
{
    upper <= r.walk.slot
}
