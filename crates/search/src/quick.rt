// The nearest segment of a line, with two roots in all: squares are compared on the way.

ghost use Rattle.std.specs.Prelude.{◌≡◌, false, List, ℕ, ◌-◌, ◌≤◌, ◌<◌, length};
ghost use Rattle.crumbs.specs.declared.Crumb.{Crumb};
ghost use Rattle.crumbs.specs.Line.{at};
ghost use Rattle.search.specs.Search.{nearest_on_breadcrumb, nearest_within};
ghost use Rattle.segments.specs.declared.costs.Ranking.TheVariants.{Plain};
ghost use Rattle.search.specs.Square.{reaches, overtakes, takes_lead, leads_down, Passes};
ghost use Rattle.search.specs.Rows.{row_length, NoneReaches};

use crate::{Range, rows};
use crumbs::Crumb;
use crumbs::held::Crumbs;
use plane::Point;
use segments::Stretch;
use segments::costs::{Nearest, Ranking};

// The segment with the least square so far, that square, and the least of those tried before it. No segment is named 0, so `best` is that
// where there is none: an `Option` of it and its square would leave out `before`, which is there from the start, and be made anew at each
// segment.
#[derive(Clone, Copy)]
struct Lead {
    best: usize,
    least: f32,
    before: f32,
}

// The lead before any segment is tried.
const NO_LEAD: Lead = Lead {
    best: 0,
    least: 0.0,
    before: f32::MAX,
};

// The lead behind the segments of a range above `end`.
#[derive(Clone, Copy)]
struct Passed {
    lead: Lead,
    end: usize,
}

// Whether the segment from `a` to `b` reaches into the stretch. By `|`, unlike the same test in `segments`: a row takes no branch.
pub fn reaches(a: Crumb, b: Crumb, within: Stretch) -> bool
    ensures { (line : List Crumb) (end : ℕ) → a ≡ at line (end - 1) → b ≡ at line end → result ≡ reaches line within end }
{
    !((b.along < within.floor) | (a.along > within.ceiling))
}

// Segment `end` in the lead where its square is less, or where none was.
fn overtake(lead: Lead, end: usize, square: f32) -> Lead
    ensures { result ≡ overtakes end square lead }
{
    if lead.best == 0 {
        return Lead {
            best: end,
            least: square,
            before: lead.before,
        };
    }
    if square < lead.least {
        return Lead {
            best: end,
            least: square,
            before: lead.least,
        };
    }
    lead
}

// The lead behind the segment from `a` to `b`, whose far end is `end`.
fn consider(a: Crumb, b: Crumb, p: Point, within: Stretch, end: usize, lead: Lead) -> Lead
    ensures { (line : List Crumb) → a ≡ at line (end - 1) → b ≡ at line end → result ≡ takes_lead line p within end lead }
{
    if reaches(a, b, within) {
        return overtake(lead, end, segments::square(a, b, p));
    }
    lead
}

// The nearest segment of the breadcrumb; on a tie the one nearer home. Where the root of the least square tried before the
// best is larger than the best's, the best is the one that the roots give. Else there may be a tie, and the roots decide.
pub fn nearest_on_breadcrumb(line: &Crumbs, p: Point, ends: Range) -> Option<Nearest>
    requires { (1 ≤ ends.from) × (ends.to < length line.now) }
    ensures { result ≡ nearest_on_breadcrumb line.now p ends }
{
    let within = crate::anywhere();
    let mut lead = NO_LEAD;
    for end in ends.from..=ends.to {
        let a = line.crumb(end - 1);
        let b = line.crumb(end);
        lead = consider(a, b, p, within, end, lead);
    }
    if lead.best == 0 {
        return None;
    }
    // These tests stand again in `plainly_within`: since the roots may not decide, one function would answer an `Option` of an `Option`.
    if binary32::sqrtf(lead.least) < binary32::sqrtf(lead.before) {
        let near = segments::nearest_on(line, p, lead.best);
        return Some(near);
    }
    crate::nearest_on_breadcrumb(line, p, ends)
}

// Whether one of a row of segments, from `end` down, reaches into the stretch.
fn any_reaches(line: &Crumbs, within: Stretch, end: usize) -> bool
    requires { (row_length ≤ end) × (end < length line.now) }
    ensures { result ≡ false → NoneReaches line.now within end }
{
    let mut any = false;
    for k in 0..rows::ROW {
        let a = line.crumb(end - k - 1);
        let b = line.crumb(end - k);
        any = any | reaches(a, b, within);
    }
    any
}

// The lead behind a row of segments, from `end` down, one by one.
fn along_row(line: &Crumbs, p: Point, within: Stretch, end: usize, lead: Lead) -> Lead
    requires { (row_length ≤ end) × (end < length line.now) }
    ensures { result ≡ leads_down line.now p within row_length end lead }
{
    let mut leading = lead;
    for k in 0..rows::ROW {
        let a = line.crumb(end - k - 1);
        let b = line.crumb(end - k);
        leading = consider(a, b, p, within, end - k, leading);
    }
    leading
}

// The lead behind a row of segments, from `end` down. Where none reaches into the stretch, it stays.
fn over_row(line: &Crumbs, p: Point, within: Stretch, end: usize, lead: Lead) -> Lead
    requires { (row_length ≤ end) × (end < length line.now) }
    ensures { result ≡ leads_down line.now p within row_length end lead }
{
    if any_reaches(line, within, end) {
        return along_row(line, p, within, end, lead);
    }
    lead
}

// The lead behind whole rows of a range, from its far end down.
fn over_rows(line: &Crumbs, p: Point, within: Stretch, ends: Range, lead: Lead) -> Passed
    requires { (1 ≤ ends.from) × (ends.to < length line.now) }
    ensures { Passes line.now p within ends lead result }
{
    let mut leading = lead;
    let mut end = ends.to;
    // By `while`: the rows end where fewer than sixteen segments are left, and the rest begins there.
    while ends.from <= end && rows::ROW <= end - ends.from {
        leading = over_row(line, p, within, end, leading);
        end -= rows::ROW;
    }
    Passed { lead: leading, end }
}

// The nearest segment of the course reaching into the stretch; on a tie the earlier ridden.
fn plainly_within(line: &Crumbs, p: Point, ends: Range, within: Stretch) -> Option<Nearest>
    requires { (1 ≤ ends.from) × (ends.to < length line.now) }
    ensures { result ≡ nearest_within line.now p ends within Plain }
{
    let passed = over_rows(line, p, within, ends, NO_LEAD);
    // That the length fits a usize bounds the sum below.
    let _ = line.len();
    let mut lead = passed.lead;
    // Not by `..=`, as in `search::nearest_within`.
    for end in (ends.from..passed.end + 1).rev() {
        let a = line.crumb(end - 1);
        let b = line.crumb(end);
        lead = consider(a, b, p, within, end, lead);
    }
    if lead.best == 0 {
        return None;
    }
    if binary32::sqrtf(lead.least) < binary32::sqrtf(lead.before) {
        let near = segments::nearest_on(line, p, lead.best);
        return Some(near);
    }
    crate::nearest_within(line, p, ends, within, Ranking::Plain)
}

// The segment of the course reaching into the stretch that costs least; on a tie the earlier ridden.
pub fn nearest_within(
    line: &Crumbs,
    p: Point,
    ends: Range,
    within: Stretch,
    by: Ranking,
) -> Option<Nearest>
    requires { (1 ≤ ends.from) × (ends.to < length line.now) }
    ensures { result ≡ nearest_within line.now p ends within by }
{
    if let Ranking::Plain = by {
        return plainly_within(line, p, ends, within);
    }
    crate::nearest_within(line, p, ends, within, by)
}
