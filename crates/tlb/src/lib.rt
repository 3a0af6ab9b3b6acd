// The TLB's state: how it starts, the scheme and the configuration it takes over, and whether it is fit.
#![tactic(auto)]

ghost use Rattle.std.specs.Prelude.{◌≡◌, ◌≤◌};
ghost use Rattle.entry.specs.Geometry.{entries_for};
ghost use Rattle.tlb.specs.State.{tlb_new, tlb_set_scheme, tlb_reconfigure, tlb_fits};

#[derive(Clone, Copy, Default)]
pub struct TlbStats {
    pub hits: u64,
    pub misses: u64,
    pub evictions: u64,
    pub page_faults: u64,
}

// The first `count` slots are the entries, `sets` rows of the ways; the rest of the array is never read. `clock_hands` has one hand for
// each set. `superpage_masks` has the page classes to probe, `mask_count` of them. Arrays of 128 beside counts are document 01's form: there is
// no heap. `Geo` is no invariant here: a host may hand in any state, and `state::fits` answers for each, with refusal 3 for those that are unfit.
#[derive(Clone, Copy)]
pub struct Tlb {
    pub entries: [entry::TlbEntry; 128],
    pub clock_hands: [u8; 128],
    pub count: usize,
    pub sets: usize,
    pub age_counter: u32,
    pub config: entry::TlbConfig,
    pub stats: TlbStats,
    pub offset_bits: u8,
    pub superpage_masks: [u8; 4],
    pub mask_count: usize,
}

// What a probe finds, the entry as it now stands or nothing, and the state after it.
#[derive(Clone, Copy)]
pub struct Probed {
    pub lookup: Option<entry::TlbEntry>,
    pub tlb: Tlb,
}

// An empty TLB for a configuration, with Sv32's offset and page classes.
#[tactic(auto, using(scheme::proofs::Classes::sv32_classes), unfolding(crate::specs::State::tlb_new))]
pub fn new(config: entry::TlbConfig) -> Tlb
    requires { entries_for config.entry_count config.associativity ≤ 128 }
    ensures { result ≡ tlb_new config }
{
    Tlb {
        entries: [entry::blank_entry(); 128],
        clock_hands: [0; 128],
        count: entry::entries_for(config.entry_count, config.associativity),
        sets: entry::sets_for(config.entry_count, config.associativity),
        age_counter: 0,
        config,
        stats: TlbStats::default(),
        offset_bits: 12,
        superpage_masks: [0, 10, 0, 0],
        mask_count: 2,
    }
}

// Adopts a paging scheme's page-offset width and page classes. Entries stay.
#[tactic(auto, unfolding(crate::specs::State::tlb_set_scheme))]
pub fn set_scheme(t: Tlb, offset_bits: u8, masks: [u8; 4], count: usize) -> Tlb
    ensures { result ≡ tlb_set_scheme t offset_bits masks count }
{
    Tlb {
        offset_bits,
        superpage_masks: masks,
        mask_count: count,
        ..t
    }
}

// Starts afresh with another configuration; the paging scheme stays.
#[tactic(auto, unfolding(crate::specs::State::tlb_reconfigure))]
pub fn reconfigure(t: Tlb, config: entry::TlbConfig) -> Tlb
    requires { entries_for config.entry_count config.associativity ≤ 128 }
    ensures { result ≡ tlb_reconfigure t config }
{
    set_scheme(new(config), t.offset_bits, t.superpage_masks, t.mask_count)
}

// Whether the state's geometry is what its configuration gives, and no entry's class is above 19.
#[tactic(auto, unfolding(crate::specs::State::tlb_fits, entry::specs::Geometry::sets_for))]
pub fn fits(t: Tlb) -> bool
    ensures { result ≡ tlb_fits t }
{
    let c = t.config;
    let made = entry::entries_for(c.entry_count, c.associativity);
    t.count <= 128
        && t.count == made
        && t.sets == made / entry::ways_of(c.associativity)
        && slots::classes_fit(t.entries, t.count)
}
