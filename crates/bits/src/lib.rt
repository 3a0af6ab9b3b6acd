// Fields of 64-bit words by masks and shifts, said in plain arithmetic. All are total: 64 bits or more are the whole word.
#![tactic(auto)]

ghost use Rattle.std.specs.Prelude.{◌≡◌, ◌/◌, ◌%◌, ◌^◌, ◌<◌};
ghost use Rattle.bits.specs.Bits.{field_of, with_low};

// The k low bits of x.
pub fn low_bits(x: u64, k: u32) -> u64
    ensures { (result ≡ x % 2 ^ k) × (result < 2 ^ k) }
{
    if 63 < k {
        return x;
    }
    x & ((1u64 << k) - 1)
}

// x with its k low bits taken from y.
pub fn with_low(x: u64, y: u64, k: u32) -> u64
    ensures { result ≡ with_low k x y }
{
    if 63 < k {
        return y;
    }
    let high = (x >> k) << k;
    high | low_bits(y, k)
}

// x without its k low bits, moved down.
pub fn shr64(x: u64, k: u8) -> u64
    ensures { result ≡ x / 2 ^ k }
{
    x.checked_shr(u32::from(k)).unwrap_or(0)
}

// The field of `width` bits of x that starts at bit `at`.
pub fn field(x: u64, at: u8, width: u8) -> u64
    ensures { (result ≡ field_of at width x) × (result < 2 ^ width) }
{
    low_bits(shr64(x, at), u32::from(width))
}
