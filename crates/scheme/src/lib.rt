// Paging schemes of a 32-bit address, and Sv39: a page offset width, and one to four index widths, top first. Beside them stand the
// small types that every crate above shares: refusals, satp, the kind of a map, accesses.
#![tactic(auto)]

ghost use Rattle.std.specs.Prelude.{◌≡◌, true, ◌+◌, drop, cond, Ok, Err};
ghost use Rattle.scheme.specs.declared.refusal.Refusal.TheVariants.{BadScheme};
ghost use Rattle.scheme.specs.Scheme.{total, ok_widths, levels_of, widths_of, total_bits, valid_of, known_level, sv32_scheme};
ghost use Rattle.scheme.specs.Scheme.{shift_of, shift_at, page_bytes_at, entries_at, root_pa, is_sv39, sv39_scheme, bought_of, format_of};
ghost use Rattle.scheme.specs.Scheme.{classes, padded, leaf_masks};
ghost use Rattle.scheme.specs.Satp.{mode_of, asid_of, root_of};

mod access;
mod map;
mod refusal;
mod satp;

pub use access::{AccessType, PrivMode};
pub use map::MapKind;
pub use refusal::Refusal;
pub use satp::{Satp, SatpMode, make_satp, make_satp39};

// `level_bits` holds `levels` widths; what stands behind them is not looked at. Four places and a count are document 01's form: there is no heap.
#[derive(Clone, Copy)]
pub struct PagingScheme {
    pub offset_bits: u8,
    pub level_bits: [u8; 4],
    pub levels: u8,
}

// What may differ between the schemes' tables and registers: an entry's bytes; the bits that a physical address is kept to; the virtual
// address's top, whose bits from `top` on are all clear, or are `ones`; and satp's fields, the PPN below the ASID, and the mode's number
// that turns translation on.
// `Modest` stays in the contracts that need it and is no invariant here: the theorems of `walks` are of every format.
#[derive(Clone, Copy)]
pub struct Format {
    pub bytes: u8,
    pub space: u8,
    pub top: u8,
    pub ones: u64,
    pub asid_at: u8,
    pub asid_bits: u8,
    pub mode_at: u8,
    pub mode_bits: u8,
    pub mode: u8,
}

// The page classes of a scheme in ascending order, `count` of them, and 0 behind: as many places as a scheme has, with no heap.
#[derive(Clone, Copy)]
pub struct LeafMasks {
    pub masks: [u8; 4],
    pub count: u8,
}

impl PagingScheme {
    pub fn sv32() -> Self
        ensures { result ≡ sv32_scheme }
    {
        PagingScheme {
            offset_bits: 12,
            level_bits: [10, 10, 0, 0],
            levels: 2,
        }
    }

    pub fn sv39() -> Self
        ensures { result ≡ sv39_scheme }
    {
        PagingScheme {
            offset_bits: 12,
            level_bits: [9, 9, 9, 0],
            levels: 3,
        }
    }

    #[tactic(auto, unfolding(crate::specs::Scheme::is_sv39))]
    pub fn is_sv39(self) -> bool
        ensures { result ≡ is_sv39 self }
    {
        matches!(
            self,
            PagingScheme {
                offset_bits: 12,
                level_bits: [9, 9, 9, _],
                levels: 3,
            }
        )
    }

    #[tactic(auto, unfolding(crate::specs::Scheme::format_of))]
    pub fn format(self) -> Format
        ensures { result ≡ format_of self }
    {
        if self.is_sv39() {
            return Format {
                bytes: 8,
                space: 56,
                top: 38,
                ones: 0x3FF_FFFF,
                asid_at: 44,
                asid_bits: 16,
                mode_at: 60,
                mode_bits: 4,
                mode: 8,
            };
        }
        Format {
            bytes: 4,
            space: 32,
            top: 32,
            ones: 0,
            asid_at: 22,
            asid_bits: 9,
            mode_at: 31,
            mode_bits: 1,
            mode: 1,
        }
    }

    // satp's mode, as the scheme's format has it.
    #[tactic(auto, unfolding(crate::specs::Satp::mode_in))]
    pub fn satp_mode(self, satp: Satp) -> SatpMode
        ensures { result ≡ mode_of self satp.raw }
    {
        let f = self.format();
        let n = bits::field(satp.raw, f.mode_at, f.mode_bits);
        satp::mode_named(f.mode, n)
    }

    pub fn asid_of(self, satp: Satp) -> u16
        ensures { result ≡ asid_of self satp.raw }
    {
        let f = self.format();
        let n = bits::field(satp.raw, f.asid_at, f.asid_bits);
        n as u16
    }

    // The frame of the root table.
    #[tactic(auto, unfolding(crate::specs::Satp::root_in))]
    pub fn root_of(self, satp: Satp) -> u64
        ensures { result ≡ root_of self satp.raw }
    {
        let f = self.format();
        bits::low_bits(satp.raw, u32::from(f.asid_at))
    }

    pub fn num_levels(self) -> u8
        ensures { result ≡ levels_of self }
    {
        self.levels
    }

    // The used widths: a count above 4 has the four that there is room for.
    fn widths(&self) -> &[u8]
        ensures { result.now ≡ widths_of self.now }
    {
        &self.level_bits[..usize::from(self.levels).min(4)]
    }

    // The offset plus the widths from `start` on.
    fn bits_from(self, start: usize) -> u32
        ensures { result ≡ self.offset_bits + total (drop start (widths_of self)) }
    {
        let mut sum = u32::from(self.offset_bits);
        // By index: maps ask this of each entry, and `skip` steps over the widths before it.
        for i in start..usize::from(self.levels).min(4) {
            sum += u32::from(self.level_bits[i]);
        }
        sum
    }

    // The offset plus all widths, for any scheme: 32 or 39 where it is valid.
    pub fn total_bits(self) -> u32
        ensures { result ≡ total_bits self }
    {
        self.bits_from(0)
    }

    // Whether each used width is 1 to 12.
    fn widths_ok(self) -> bool
        ensures { result ≡ ok_widths (widths_of self) }
    {
        self.widths().iter().all(|w| (1..=12).contains(w))
    }

    // Whether it is one of document 01's schemes.
    #[tactic(auto, unfolding(crate::specs::Scheme::bought_of))]
    pub fn is_bought(self) -> bool
        ensures { result ≡ bought_of self }
    {
        (12..=30).contains(&self.offset_bits)
            && (1..=4).contains(&self.levels)
            && self.widths_ok()
            && self.total_bits() == 32
    }

    #[tactic(auto, unfolding(crate::specs::Scheme::valid_of))]
    pub fn is_valid(self) -> bool
        ensures { result ≡ valid_of self }
    {
        self.is_bought() || self.is_sv39()
    }

    // Refusal 1 unless the scheme is valid and has this level.
    fn known(self, level: u8) -> Result<(), Refusal>
        ensures { result ≡ cond (known_level self level) (Ok tt) (Err BadScheme) }
    {
        if self.is_valid() && level < self.levels {
            Ok(())
        } else {
            Err(Refusal::BadScheme)
        }
    }

    // The offset plus the widths below `level`: for callers that know the scheme is valid.
    #[tactic(auto, unfolding(crate::specs::Scheme::shift_of))]
    pub fn shift_below(self, level: u8) -> u32
        ensures { result ≡ shift_of self.offset_bits (widths_of self) level }
    {
        self.bits_from(usize::from(level) + 1)
    }

    pub fn shift_at(self, level: u8) -> Result<u64, Refusal>
        ensures { result ≡ shift_at self level }
    {
        self.known(level)?;
        Ok(u64::from(self.shift_below(level)))
    }

    // The size of a page that a leaf at `level` maps.
    pub fn page_bytes_at(self, level: u8) -> Result<u64, Refusal>
        ensures { result ≡ page_bytes_at self level }
    {
        self.known(level)?;
        Ok(1 << self.shift_below(level))
    }

    // How many entries a table of `level` has.
    pub fn entries_at(self, level: u8) -> Result<u64, Refusal>
        ensures { result ≡ entries_at self level }
    {
        self.known(level)?;
        let w = self.level_bits[usize::from(level)];
        Ok(1 << w)
    }

    // The classes from the leaf level's, which is 0, to the top level's.
    fn classes(self) -> [u8; 4]
        requires { valid_of self ≡ true }
        ensures { result ≡ padded (classes (widths_of self)) }
    {
        let n = usize::from(self.levels);
        let mut masks = [0; 4];
        let mut below = 0;
        // By index: the classes go up as the widths are read down, and a zip of both is no plainer.
        for i in 0..n {
            masks[i] = below;
            below += self.level_bits[n - 1 - i];
        }
        masks
    }

    pub fn leaf_masks(self) -> Result<LeafMasks, Refusal>
        ensures { result ≡ leaf_masks self }
    {
        if self.is_valid() {
            let masks = self.classes();
            return Ok(LeafMasks {
                masks,
                count: self.levels,
            });
        }
        Err(Refusal::BadScheme)
    }

    // Where the top table starts in a RAM of `mem_size` bytes: as high as it fits.
    pub fn root_pa(self, mem_size: u64) -> Result<u64, Refusal>
        ensures { result ≡ root_pa self mem_size }
    {
        if !self.is_valid() {
            return Err(Refusal::BadScheme);
        }
        let w = self.level_bits[0];
        let bytes = u64::from(self.format().bytes) << w;
        let room = (bytes + 4095) / 4096 * 4096;
        Ok(mem_size.saturating_sub(room) / 4096 * 4096)
    }
}
