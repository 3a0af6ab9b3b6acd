// The fields of a page-table entry: questions on the word, by value. An entry of 32 bits is a word whose high half is clear.
#![tactic(auto)]

ghost use Rattle.std.specs.Prelude.{◌≡◌};
ghost use Rattle.bits.specs.Bits.{bit, with_bit};
ghost use Rattle.pte.specs.Entry.{valid_bit, perms_of, global_bit, a_place, d_place, high_bits, leaf_of, ppn_of};

#[derive(Clone, Copy)]
pub struct PtePerms {
    pub r: bool,
    pub w: bool,
    pub x: bool,
    pub u: bool,
}

#[derive(Clone, Copy)]
pub struct Pte {
    pub raw: u64,
}

impl Pte {
    pub fn new(raw: u64) -> Self
        ensures { result.raw ≡ raw }
    {
        Self { raw }
    }

    pub fn valid(self) -> bool
        ensures { result ≡ valid_bit self.raw }
    {
        self.raw & 0x1 != 0
    }

    pub fn perms(self) -> PtePerms
        ensures { result ≡ perms_of self.raw }
    {
        PtePerms {
            r: self.raw & 0x2 != 0,
            w: self.raw & 0x4 != 0,
            x: self.raw & 0x8 != 0,
            u: self.raw & 0x10 != 0,
        }
    }

    pub fn global(self) -> bool
        ensures { result ≡ global_bit self.raw }
    {
        self.raw & 0x20 != 0
    }

    pub fn accessed(self) -> bool
        ensures { result ≡ bit a_place self.raw }
    {
        self.raw & 0x40 != 0
    }

    pub fn dirty(self) -> bool
        ensures { result ≡ bit d_place self.raw }
    {
        self.raw & 0x80 != 0
    }

    pub fn ppn(self) -> u64
        ensures { result ≡ ppn_of self.raw }
    {
        (self.raw >> 10) & 0xFFF_FFFF_FFFF
    }

    // Whether a bit above the PPN is set: never in an entry of 32 bits.
    pub fn high(self) -> bool
        ensures { result ≡ high_bits self.raw }
    {
        self.raw >> 54 != 0
    }

    // A leaf has at least one of R, W, X set.
    pub fn is_leaf(self) -> bool
        ensures { result ≡ leaf_of self.raw }
    {
        let p = self.perms();
        p.r || p.w || p.x
    }

    pub fn with_a(self) -> Self
        ensures { result.raw ≡ with_bit a_place self.raw }
    {
        Self {
            raw: self.raw | 0x40,
        }
    }

    pub fn with_d(self) -> Self
        ensures { result.raw ≡ with_bit d_place self.raw }
    {
        Self {
            raw: self.raw | 0x80,
        }
    }
}
