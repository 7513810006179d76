// The lines that `retell` prints, and the numbers in them.

ghost use Rattle.std.specs.Prelude.{◌≡◌, ◌∷◌, [], ◌<◌, ◌≤◌, length};
ghost use Rattle.crumbs.specs.Crumb.{capacity, crumbs};
ghost use Rattle.retelling.specs.Text.{capital as capital_of, decimal, capitals, pattern, crumb_line, crumb_lines, stage_text, first_line};
ghost use Rattle.retelling.specs.Text.{rebuilt_text, refused_text};
ghost use Rattle.retelling.specs.Writing.{Puts, PutsWhole};

use crate::NUMBERS;
use crumbs::Crumb;

// Writes to a text that the caller lends, from place `at` on, as far as there is room. Clauses name each byte and where it goes, which
// those of a formatter don't, so digits are made here.
#[derive(Drop)]
pub struct Writer<'a> {
    pub text: &'a mut [u8],
    pub at: usize,
}

#[tactic(auto, unfolding(crate::specs::Text::capital))]
fn capital(d: u32) -> u8
    requires { d < 16 }
    ensures { result ≡ capital_of d }
{
    if d < 10 {
        return 48 + d as u8;
    }
    55 + d as u8
}

impl Writer<'_> {
    // ---- bytes and words

    fn put_byte(&mut self, b: u8)
        ensures { Puts (b ∷ []) self.old self.new }
    {
        if self.at < self.text.len() {
            self.text[self.at] = b;
            self.at += 1;
        }
    }

    fn put_word(&mut self, word: &[u8])
        ensures { Puts word.now self.old self.new }
    {
        for b in word {
            self.put_byte(*b);
        }
    }

    // ---- numbers

    fn put_decimal(&mut self, n: u64)
        ensures { Puts (decimal n) self.old self.new }
    {
        let mut digits = [0u8; 20];
        let count = io::decimal(n, &mut digits);
        self.put_word(&digits[..count]);
    }

    // The last `count` hexadecimal digits of `n`.
    fn put_capitals(&mut self, count: u32, n: u32)
        ensures { Puts (capitals count n) self.old self.new }
    {
        if count == 0 {
            return;
        }
        self.put_capitals(count - 1, n / 16);
        self.put_byte(capital(n % 16));
    }

    #[tactic(auto, unfolding(crate::specs::Text::pattern))]
    fn put_pattern(&mut self, x: f32)
        ensures { Puts (pattern x) self.old self.new }
    {
        self.put_capitals(8, binary32::pattern(x));
    }

    // ---- lines

    fn put_crumb(&mut self, c: Crumb)
        ensures { Puts (crumb_line c) self.old self.new }
    {
        self.put_pattern(c.east);
        self.put_byte(b' ');
        self.put_pattern(c.north);
        self.put_byte(b' ');
        self.put_pattern(c.along);
        self.put_byte(b'\n');
    }

    // The first `len` crumbs of the buffer.
    fn put_crumbs(&mut self, buf: &[f32], len: usize)
        requires { len ≤ capacity (length buf.now) }
        ensures { Puts (crumb_lines (crumbs len buf.now)) self.old self.new }
    {
        for i in 0..len {
            self.put_crumb(crumbs::crumb_at(buf, i));
        }
    }

    #[tactic(auto, unfolding(crate::specs::Text::stage_text))]
    fn put_stage(&mut self, decided: bool)
        ensures { Puts (stage_text decided) self.old self.new }
    {
        if decided {
            self.put_word(b"decided");
        } else {
            self.put_word(b"pending");
        }
    }

    fn put_first(&mut self, len: usize, clock_ms: u64, decided: bool)
        ensures { Puts (first_line len clock_ms decided) self.old self.new }
    {
        self.put_word(b"crumbs ");
        self.put_decimal(len as u64);
        self.put_word(b" clock ");
        self.put_decimal(clock_ms);
        self.put_word(b" stage ");
        self.put_stage(decided);
        self.put_byte(b'\n');
    }

    pub fn put_refused(&mut self, number: u8)
        ensures { PutsWhole (refused_text number) self.old self.new }
    {
        self.put_word(b"refused ");
        self.put_decimal(u64::from(number));
        self.put_byte(b'\n');
    }

    // The first line, and the first `len` crumbs of the buffer.
    pub fn put_rebuilt(&mut self, len: usize, clock_ms: u64, decided: bool, buf: &[f32; NUMBERS])
        requires { len ≤ 512 }
        ensures { PutsWhole (rebuilt_text (crumbs len buf.now) clock_ms decided) self.old self.new }
    {
        self.put_first(len, clock_ms, decided);
        self.put_crumbs(buf, len);
    }
}
