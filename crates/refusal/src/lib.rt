// The questions that refuse a call, and their numbers. Which call is asked which, and what each asks, is in `calls`, `thin` and `ride_log`.
#![tactic(auto)]

ghost use Rattle.std.specs.Prelude.{◌≡◌};
ghost use Rattle.refusal.specs.Refusal.{number, asked, unless};

#[derive(Clone, Copy, PartialEq, Eq)]
pub enum Refusal {
    // The crumb buffer is no whole number of crumbs long, or has room for too few or too many.
    CrumbBuffer = 1,
    // A place off the globe.
    Latitude = 2,
    Longitude = 3,
    // The line buffer, or more points than it has room for.
    LineBuffer = 4,
    // An entry of more than four samples.
    SampleCount = 5,
    // A chain file of another length, a chain that does not end, an entry of no kind.
    FileLength = 6,
    Chain = 7,
    EntryKind = 8,
    // What `thin` is given.
    Thinning = 9,
    // The state, or what is held in the buffers.
    State = 10,
}

impl Refusal {
    // The question's number.
    pub fn number(self) -> u8
        ensures { result ≡ number self }
    {
        self as u8
    }

    // Refuses where the question's answer is no.
    pub fn unless(self, ok: bool) -> Result<(), Refusal>
        ensures { asked result ≡ unless ok (number self) }
    {
        if ok {
            return Ok(());
        }
        Err(self)
    }
}
