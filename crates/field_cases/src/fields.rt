// Fields of words: masks at both ends, and the entry's questions.
use pte::Pte;
use show::{Hex, YesNo, say};

// An entry of 32 bits has no high bits to be told.
pub fn entry(rt: &impl Print, raw: u64, wide: bool) {
    let e = Pte::new(raw);
    say!(rt; "pte {}", Hex(raw));
    say!(rt;
        " {} {} {}",
        YesNo(e.valid()),
        YesNo(e.is_leaf()),
        YesNo(e.global())
    );
    say!(rt;
        " {} {} {}",
        YesNo(e.accessed()),
        YesNo(e.dirty()),
        Hex(e.ppn())
    );
    say!(rt; " {} {}", Hex(e.with_a().raw), Hex(e.with_d().raw));
    if wide {
        say!(rt; " {}", YesNo(e.high()));
    }
    say!(rt; "\n");
}

// The low k bits of x, and y with them.
pub fn masks(rt: &impl Print, k: u32, x: u64, y: u64) {
    let low = bits::low_bits(x, k);
    say!(rt; "low {k} {} {}\n", Hex(low), Hex(bits::with_low(y, x, k)));
}
