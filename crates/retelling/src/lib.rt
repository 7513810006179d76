// What the program `retell` prints of a chain file: the file's chain is rebuilt, and what came of it is told.
#![tactic(auto)]

mod lines;

ghost use Rattle.std.specs.Prelude.{◌≤◌, IfOk};
ghost use Rattle.retelling.specs.Writing.{PutsWhole};
ghost use Rattle.retelling.specs.Retold.{Retells};
ghost use Rattle.retelling.specs.Told.{told, Rebuilds};

use lines::Writer;
use rebuild::Rebuild;
use refusal::Refusal;

// The numbers of 512 crumbs.
const NUMBERS: usize = crumbs::STRIDE * 512;

// As many slots as a file can have records.
const SLOTS: usize = ride_log::file_questions::MOST;

// A chain that was not refused: the rebuild at its end, and how many crumbs are held.
#[derive(Clone, Copy)]
struct Rebuilt {
    rebuild: Rebuild,
    len: usize,
}

// What is told of a chain, whose crumbs stand in front of the buffer.
fn put_told(writer: &mut Writer<'_>, chain: Result<Rebuilt, Refusal>, buf: &[f32; NUMBERS])
    requires { IfOk chain (λ x. x.len ≤ 512) }
    ensures { PutsWhole (told chain buf.now) writer.old writer.new }
{
    match chain {
        Ok(x) => {
            let decided = rebuild::is_decided(x.rebuild.stage);
            writer.put_rebuilt(x.len, x.rebuild.clock_ms, decided, buf);
        }
        Err(refusal) => writer.put_refused(refusal.number()),
    }
}

// The whole chain of the file, rebuilt into the crumbs of a new guide.
fn rebuild_chain(file: &[u8], crumbs: &mut [f32; NUMBERS]) -> Result<Rebuilt, Refusal>
    ensures { Rebuilds file.now result crumbs.new }
{
    // No question refuses a buffer for 512 crumbs.
    let (mut h, _) = homing::new(crumbs);
    let mut rebuild = restart::new(ride_log::recovered(file), SLOTS);
    restart::step(&mut rebuild, &mut h, crumbs, file, SLOTS, SLOTS)?;
    Ok(Rebuilt {
        rebuild,
        len: h.trail.len,
    })
}

// Write what the program prints of a chain file to the front of the text, and answer how many bytes those are: memory is fixed, so no
// String, and the clause names each byte. A text of 16,384 bytes has room for all of them.
pub fn retell(file: &[u8], text: &mut [u8]) -> usize
    ensures { Retells file.now text.old text.new result }
{
    let mut crumbs = [0.0; NUMBERS];
    let chain = rebuild_chain(file, &mut crumbs);
    let mut writer = Writer { text, at: 0 };
    put_told(&mut writer, chain, &crumbs);
    writer.at
}
