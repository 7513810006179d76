// Replays stored answers of the Rust's `thin::thin`. Standard input holds the cases one behind the
// other, in words of eight hexadecimal capitals, each followed by a space or a line's end: three words
// take 27 bytes. A case is
// - the capacity, the length and the tolerance,
// - east, north and along of each crumb,
// - the length, the tolerance and the passes that the Rust answered,
// - east, north and along of each crumb that it left.
// An f32 stands as its bit pattern, and an answer that is a NaN as 7FC00000.
#![tactic(auto)]

ghost use Rattle.std.specs.Prelude.{◌≤◌, length};
ghost use Rattle.crumbs.specs.Crumb.{capacity};

use std::io;
use std::io::Read;

// The numbers and the bytes of text that the most crumbs take.
const NUMBERS: usize = crumbs::STRIDE * crumbs::MOST;

const TEXT: usize = 27 * crumbs::MOST;

// No `to_digit`: it takes small letters too, which no word has.
fn digit(b: u8) -> u32 {
    match b {
        b'0'..=b'9' => u32::from(b - b'0'),
        b'A'..=b'F' => u32::from(b - b'A' + 10),
        _ => 0,
    }
}

// The three words of a text.
fn words(text: &[u8; 27]) -> [u32; 3] {
    let mut words = [0u32; 3];
    for (word, text) in words.iter_mut().zip(text.as_chunks::<9>().0) {
        *word = text[..8]
            .iter()
            .fold(0, |value, b| (value << 4) | digit(*b));
    }
    words
}

// The next three words. None: the input ends before.
fn next(input: &mut impl Read) -> io::Result<Option<[u32; 3]>> {
    let mut text = [0u8; 27];
    if !records::fill(input, &mut text)? {
        return Ok(None);
    }
    Ok(Some(words(&text)))
}

// Fills the line with the crumbs that come next, whose text is read at once. False: the input ends before.
fn fill(input: &mut impl Read, text: &mut [u8], line: &mut [f32]) -> io::Result<bool> {
    if !records::fill(input, text)? {
        return Ok(false);
    }
    let texts = text.as_chunks::<27>().0;
    for (crumb, text) in line.as_chunks_mut::<3>().0.iter_mut().zip(texts) {
        *crumb = words(text).map(records::float);
    }
    Ok(true)
}

// Whether the line's crumbs are those that come next.
fn holds(input: &mut impl Read, text: &mut [u8], line: &[f32]) -> io::Result<bool> {
    if !records::fill(input, text)? {
        return Ok(false);
    }
    let texts = text.as_chunks::<27>().0;
    for (crumb, text) in line.as_chunks::<3>().0.iter().zip(texts) {
        if words(text) != crumb.map(binary32::pattern) {
            return Ok(false);
        }
    }
    Ok(true)
}

// Thins the line that comes next. Whether the answer, with the buffer that it left, is the Rust's.
fn agrees(
    input: &mut impl Read,
    text: &mut [u8; TEXT],
    buf: &mut [f32],
    len: usize,
    tolerance: f32,
) -> io::Result<bool>
    requires { (len ≤ 4096) × (len ≤ capacity (length buf.old)) }
{
    if !fill(
        input,
        &mut text[..27 * len],
        &mut buf[..crumbs::STRIDE * len],
    )? {
        return Ok(false);
    }
    let Ok(left) = thin::thin(buf, len, tolerance) else {
        return Ok(false);
    };
    let Some(words) = next(input)? else {
        return Ok(false);
    };
    let [len, tolerance, passes] = words;
    if (len as usize, tolerance, passes as usize)
        != (left.len, binary32::pattern(left.tolerance), left.passes)
    {
        return Ok(false);
    }
    holds(
        input,
        &mut text[..27 * left.len],
        &buf[..crumbs::STRIDE * left.len],
    )
}

// Whether the next case agrees. None: there is none.
fn replay(
    input: &mut impl Read,
    text: &mut [u8; TEXT],
    numbers: &mut [f32; NUMBERS],
) -> io::Result<Option<bool>> {
    let Some(words) = next(input)? else {
        return Ok(None);
    };
    let [capacity, len, tolerance] = words;
    let capacity = capacity as usize;
    let len = len as usize;
    if capacity > crumbs::MOST || len > capacity {
        return Ok(Some(false));
    }
    let buf = &mut numbers[..crumbs::STRIDE * capacity];
    agrees(input, text, buf, len, records::float(tolerance)).map(Some)
}

// Replays at most a million cases.
fn main(rt: HostRuntime) -> io::Result<()> {
    let mut input = rt.reader();
    let mut text = [0u8; TEXT];
    let mut numbers = [0.0f32; NUMBERS];
    for agreed in 0..1_000_000u64 {
        match replay(&mut input, &mut text, &mut numbers)? {
            Some(true) => {}
            Some(false) => return println!(rt; "case {} differs", agreed + 1),
            None => return println!(rt; "{agreed} cases agree"),
        }
    }
    Ok(())
}
