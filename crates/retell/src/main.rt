// Tells what a chain file gives back: the crumbs that a new guide holds once the whole chain is rebuilt,
// or the question that refuses the file. The file comes on standard input.
#![tactic(auto)]

ghost use Rattle.std.specs.Prelude.{◌≡◌, ◌≤◌, length, take, IfOk};

use std::io::{self, Read};

// One byte more than 682 records have. No more is read: a file of so many bytes is refused for its length,
// whatever follows.
const KEPT: usize = 65_473;

// The most that is told of a file.
const TEXT: usize = 16_384;

// Reads the input to its end, or until the file is full, and answers how many bytes those are. By `while`: how many come at a time is for
// the input to say.
fn read_input(input: &mut impl Read, file: &mut [u8]) -> io::Result<usize>
    ensures within { IfOk result (λ n. n ≤ length file.new) }
    ensures front { IfOk result (λ n. n ≡ length (take n file.new)) }
{
    let mut kept = 0;
    while kept < file.len() {
        let bytes = input.read(&mut file[kept..])?;
        if bytes == 0 {
            break;
        }
        kept += bytes;
    }
    Ok(kept)
}

// Tells on standard error what failed. Where that fails too, nothing is left to tell it to.
fn complain(rt: &impl Eprint, what: &str) {
    let _ = rt.eprint(what);
}

// File and text are arrays: memory is fixed, and neither can be longer than they are.
fn main(rt: HostRuntime) {
    let mut file = [0u8; KEPT];
    let Ok(kept) = read_input(&mut rt.reader(), &mut file) else {
        complain(&rt, "error: standard input cannot be read\n");
        return;
    };
    let mut text = [0u8; TEXT];
    let len = retelling::retell(&file[..kept], &mut text);
    if rt.write_all(&text[..len]).is_err() {
        complain(&rt, "error: standard output cannot be written\n");
    }
}
