// A lent buffer and the place in it that is written next: bytes, numbers and words are put one after another.
#![tactic(auto)]

ghost use Rattle.std.specs.Prelude.{[], ◌∷◌, ◌≡◌, ◌+◌, ◌<◌, length};
ghost use Rattle.writer.specs.Digits.{glyph, hex_of, decimal_of, told};
ghost use Rattle.writer.specs.Wrote.{HasRoom, Wrote};

fn digit(d: u64) -> u8
    requires { d < 16 }
    ensures { result ≡ glyph d }
{
    if d < 10 { 48 + d as u8 } else { 87 + d as u8 }
}

#[derive(Drop)]
pub struct Out<'a> {
    buf: &'a mut [u8],
    at: usize,
}

impl<'a> Out<'a> {
    pub fn new(buf: &'a mut [u8]) -> Out<'a>
        ensures same_reference { result.buf.ghost_name ≡ buf.entry.ghost_name }
        ensures buf { result.buf.now ≡ buf.old }
        ensures at { result.at ≡ 0 }
    {
        Out { buf, at: 0 }
    }

    // The place after what was put.
    pub fn at(&self) -> usize
        ensures { result ≡ self.now.at }
    {
        self.at
    }

    pub fn bytes(&mut self, s: &[u8])
        requires { HasRoom (length s.now) self.old }
        ensures { Wrote (length s.now) self.old self.new s.now }
    {
        let end = self.at + s.len();
        self.buf[self.at..end].copy_from_slice(s);
        self.at = end;
    }

    fn digit(&mut self, d: u64)
        requires { HasRoom 1 self.old × (d < 16) }
        ensures { Wrote 1 self.old self.new (glyph d ∷ []) }
    {
        self.buf[self.at] = digit(d);
        self.at += 1;
    }

    // From the last digit to the first.
    pub fn hex(&mut self, x: u64)
        requires { HasRoom 8 self.old }
        ensures { Wrote 8 self.old self.new (hex_of x) }
    {
        let mut n = x;
        for i in (0..8).rev() {
            self.buf[self.at + i] = digit(n % 16);
            n /= 16;
        }
        self.at += 8;
    }

    // Calls itself for the digits before the last: at most 20 deep.
    #[tactic(auto, using(crate::proofs::Decimals::length_one, crate::proofs::Decimals::length_more))]
    fn decimal(&mut self, x: u64)
        requires { HasRoom (length (decimal_of x)) self.old }
        ensures { Wrote (length (decimal_of x)) self.old self.new (decimal_of x) }
    {
        if x < 10 {
            return self.digit(x);
        }
        self.decimal(x / 10);
        self.digit(x % 10);
    }

    // A word and the number that it tells.
    pub fn told(&mut self, word: &[u8], x: u64)
        requires { HasRoom (length word.now + length (decimal_of x)) self.old }
        ensures { Wrote (length word.now + length (decimal_of x)) self.old self.new (told word.now x) }
    {
        self.bytes(word);
        self.decimal(x);
    }
}
