// Little-endian words of up to eight bytes in a lent stretch of RAM.
#![tactic(auto)]

ghost use Rattle.std.specs.Prelude.{◌≡◌, ◌<◌, ◌≤◌};
ghost use Rattle.memory.specs.Word.{readable, word_at, store_in};

// Whether all n bytes at `a` lie in RAM and below 2^bits.
pub fn is_readable(ram: &[u8], a: u64, n: u8, bits: u8) -> bool
    ensures { result ≡ readable bits n ram.now a }
{
    let Some(end) = a.checked_add(u64::from(n)) else {
        return false;
    };
    end <= ram.len() as u64 && (63 < bits || end <= 1 << bits)
}

// The word at `a`, if it is readable.
pub fn load(ram: &[u8], a: u64, n: u8, bits: u8) -> Option<u64>
    requires { n ≤ 8 }
    ensures { result ≡ word_at bits n ram.now a }
{
    if !is_readable(ram, a, n, bits) {
        return None;
    }
    let i = a as usize;
    let word = &ram[i..i + usize::from(n)];
    let v = word.iter().rev().fold(0, |v, b| v << 8 | u64::from(*b));
    Some(v)
}

// Writes the n low bytes of `v` at `a` if the word there is readable, and tells whether it did.
pub fn store(ram: &mut [u8], a: u64, n: u8, bits: u8, v: u64) -> bool
    ensures { (result ≡ readable bits n ram.old a) × (ram.new ≡ store_in bits n ram.old a v) }
{
    if !is_readable(ram, a, n, bits) {
        return false;
    }
    let i = a as usize;
    let mut rest = v;
    for b in ram[i..i + usize::from(n)].iter_mut() {
        *b = (rest % 256) as u8;
        rest /= 256;
    }
    true
}

// The published words, of document 01: for every address and RAM.
pub fn load32(ram: &[u8], a: u32) -> Option<u64>
    ensures { result ≡ word_at 32 4 ram.now a }
{
    load(ram, u64::from(a), 4, 32)
}

pub fn store32(ram: &mut [u8], a: u32, v: u32) -> bool
    ensures { (result ≡ readable 32 4 ram.old a) × (ram.new ≡ store_in 32 4 ram.old a v) }
{
    store(ram, u64::from(a), 4, 32, u64::from(v))
}
