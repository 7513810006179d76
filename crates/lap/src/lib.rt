// The passes of the start, which is where the rider first moved.
#![tactic(auto)]

ghost use Rattle.std.specs.Prelude.{◌≡◌};
ghost use Rattle.lap.specs.Pass.{step_of};
ghost use Rattle.lap.specs.Lap.{lap_start, step_pass};

use plane::Point;

// Another pass counts only after being this far from the start.
const PASS_ARM_M: f32 = 100.0;

// A pass of the start comes within this, and ends when the rider is `PASS_END_M` away again; the gap
// keeps jitter at the edge from ending it early.
const PASS_M: f32 = 40.0;

const PASS_END_M: f32 = 50.0;

#[derive(Clone, Copy)]
pub enum Stage {
    // At or near the start, or just passed it: not counting until the rider is `PASS_ARM_M` away. A
    // ride begins here.
    Spent,
    // Away from the start, so the next approach counts.
    Armed,
    // Within `PASS_M`.
    Inside,
}

#[derive(Clone, Copy)]
pub struct StartPass {
    pub stage: Stage,
}

impl StartPass {
    // Take the rider's distance from the start, and say whether it completed a pass: that is where the
    // rider came near, then left while moving.
    pub fn step(&mut self, direct: f32, moving: bool) -> bool
        ensures { (self.new ≡ (step_of self.old direct moving).pass)
            × (result ≡ (step_of self.old direct moving).passed) }
    {
        match self.stage {
            Stage::Spent => {
                if direct > PASS_ARM_M {
                    self.stage = Stage::Armed;
                }
            }
            Stage::Armed => {
                if direct < PASS_M {
                    self.stage = Stage::Inside;
                }
            }
            Stage::Inside => {
                if direct > PASS_END_M {
                    self.stage = Stage::Spent;
                    return moving;
                }
            }
        }
        false
    }
}

// Passes of the start, which is where the rider first moved.
#[derive(Clone, Copy)]
pub struct Lap {
    pub pass: StartPass,
    pub start: Option<Point>,
    // Whether the rider rode past the start.
    pub passed: bool,
}

// The start for laps is where the rider first moves.
fn lap_start(start: Option<Point>, p: Point, moving: bool) -> Option<Point>
    ensures { result ≡ lap_start moving start p }
{
    start.or(moving.then_some(p))
}

// The lap after a position, with a completed pass noted in it.
pub fn step_pass(l: Lap, p: Point, heading: Option<u16>) -> Lap
    ensures { result ≡ step_pass l p heading }
{
    let is_moving = heading.is_some();
    let start = lap_start(l.start, p, is_moving);
    let mut lap = Lap { start, ..l };
    let Some(from) = start else {
        return lap;
    };
    if lap.pass.step(plane::distance(p, from), is_moving) {
        lap.passed = true;
    }
    lap
}
