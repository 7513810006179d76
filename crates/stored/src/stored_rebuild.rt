// A rebuild's state in a slice of words that the caller lends. The layout is the table in specs/Rebuilt.antt. Word 0 is a mark.

ghost use Rattle.std.specs.Prelude.{◌≡◌, true, ◌≤◌, length};
ghost use Rattle.stored.specs.Fields.{within};
ghost use Rattle.stored.specs.Rebuilt.{rebuild_count, rebuild_mosts, stage_read, rebuild_at, holds_rebuild, stored_rebuild, pending_flag};
ghost use Rattle.stored.specs.Rebuilt.{pending_in, rebuild_words, StoresRebuild};

use crate::{fields, layout};
use rebuild::{Rebuild, Stage, Walk};

pub const REBUILD_WORDS: usize = 7;

// The letters CITTUMAR.
const REBUILD_MARK: u64 = 4848499195026162002;

// The most that each word may be.
const REBUILD_MOST: [u64; REBUILD_WORDS] = [
    REBUILD_MARK,
    fields::U32,
    fields::U64,
    1,
    1,
    fields::U64,
    fields::U64,
];

fn stage_at(words: &[u64; REBUILD_WORDS]) -> Stage
    ensures { result ≡ stage_read words.now }
{
    if fields::flag_at(words, layout::PENDING) {
        let known = fields::flag_at(words, layout::UTC_KNOWN);
        return Stage::Pending(known.then_some(words[layout::UTC_KNOWN + 1]));
    }
    Stage::Decided
}

// `holds_rebuild` asks all words, and this reads them: with both in one, each field would be an Option to take apart.
fn rebuild_at(words: &[u64; REBUILD_WORDS]) -> Rebuild
    ensures { result ≡ rebuild_at words.now }
{
    let slot = words[layout::SLOT] as usize;
    Rebuild {
        recovered: u32::try_from(words[layout::RECOVERED]).unwrap_or(0),
        walk: Walk { slot },
        stage: stage_at(words),
        clock_ms: words[layout::CLOCK],
    }
}

#[tactic(auto, unfolding(crate::specs::Rebuilt::holds_rebuild))]
fn holds_rebuild(words: &[u64; REBUILD_WORDS]) -> bool
    ensures { result ≡ holds_rebuild words.now }
{
    words[layout::MARK] == REBUILD_MARK && fields::within(&REBUILD_MOST, words)
}

// The rebuild that the words hold.
pub fn load_rebuild(words: &[u64]) -> Option<Rebuild>
    ensures { result ≡ stored_rebuild words.now }
{
    let words = words.first_chunk()?;
    holds_rebuild(words).then(|| rebuild_at(words))
}

fn pending_flag(s: Stage) -> u64
    ensures { result ≡ pending_flag s }
{
    u64::from(matches!(s, Stage::Pending(_)))
}

fn pending_in(s: Stage) -> Option<u64>
    ensures { result ≡ pending_in s }
{
    match s {
        Stage::Pending(t) => t,
        Stage::Decided => None,
    }
}

fn rebuild_words(r: Rebuild) -> [u64; REBUILD_WORDS]
    ensures { (result ≡ rebuild_words r) × (within rebuild_mosts (rebuild_words r) ≡ true) }
{
    let last = pending_in(r.stage);
    [
        REBUILD_MARK,
        u64::from(r.recovered),
        r.walk.slot as u64,
        pending_flag(r.stage),
        u64::from(last.is_some()),
        last.unwrap_or(0),
        r.clock_ms,
    ]
}

// The rebuild `r` in the words, in front of what lies behind.
pub fn store_rebuild(r: Rebuild, words: &mut [u64])
    requires { rebuild_count ≤ length words.old }
    ensures { StoresRebuild r words.old words.new }
{
    words[..REBUILD_WORDS].copy_from_slice(&rebuild_words(r));
}
