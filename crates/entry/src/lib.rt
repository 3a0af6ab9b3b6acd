// One entry of the TLB, the replacement policies, and how many entries and sets a configuration gives. All by value, over entries and numbers.
#![tactic(auto)]

ghost use Rattle.std.specs.Prelude.{◌≡◌, false, true, ◌/◌, ◌%◌, ◌^◌, ◌<◌, max};
ghost use Rattle.entry.specs.Entry.{blank, matches_of, touched_of, is_clock, fresh_of, better_of};
ghost use Rattle.entry.specs.Geometry.{default_config, pow_up, ways_for, entries_for, sets_for};

// Six ways to pick the slot that an install gives up.
#[derive(Clone, Copy)]
pub enum ReplacementPolicy {
    Lru,
    Mru,
    Fifo,
    Lfu,
    Clock,
    Random,
}

// The wide fields first, so that an entry takes 32 bytes.
#[derive(Clone, Copy)]
pub struct TlbEntry {
    pub vpn: u64,
    pub ppn: u64,
    pub age: u32,
    pub asid: u16,
    pub perms: pte::PtePerms,
    pub valid: bool,
    pub global: bool,
    pub accessed: bool,
    pub dirty: bool,
    pub mask_bits: u8,
    pub ref_bit: bool,
}

#[derive(Clone, Copy)]
pub struct TlbConfig {
    pub entry_count: u16,
    pub associativity: u8,
    pub replacement: ReplacementPolicy,
    pub hit_latency: u8,
    pub miss_penalty: u8,
}

// What a slot holds before anything is installed.
pub fn blank_entry() -> TlbEntry
    ensures { result ≡ blank }
{
    TlbEntry {
        vpn: 0,
        ppn: 0,
        age: 0,
        asid: 0,
        perms: pte::PtePerms {
            r: false,
            w: false,
            x: false,
            u: false,
        },
        valid: false,
        global: false,
        accessed: false,
        dirty: false,
        mask_bits: 0,
        ref_bit: false,
    }
}

pub fn default_config() -> TlbConfig
    ensures { result ≡ default_config }
{
    TlbConfig {
        entry_count: 32,
        associativity: 4,
        replacement: ReplacementPolicy::Lru,
        hit_latency: 1,
        miss_penalty: 20,
    }
}

// Whether a cached entry answers for a page of an address space. One test with no branch.
#[tactic(auto, unfolding(crate::specs::Entry::matches_of))]
pub fn matches(e: TlbEntry, vpn: u64, asid: u16) -> bool
    ensures { result ≡ matches_of e vpn asid }
{
    let m = e.mask_bits;
    let same = bits::shr64(e.vpn, m) == bits::shr64(vpn, m);
    e.valid & (e.global | (e.asid == asid)) & same
}

// What a found probe leaves in the entry.
pub fn touched(e: TlbEntry, policy: ReplacementPolicy, age: u32) -> TlbEntry
    ensures { result ≡ touched_of policy age e }
{
    match policy {
        ReplacementPolicy::Lru | ReplacementPolicy::Mru | ReplacementPolicy::Lfu => TlbEntry {
            age,
            ..e
        },
        ReplacementPolicy::Clock => TlbEntry { ref_bit: true, ..e },
        ReplacementPolicy::Fifo | ReplacementPolicy::Random => e,
    }
}

// Only Clock looks at reference bits.
pub fn is_clock(policy: ReplacementPolicy) -> bool
    ensures { result ≡ is_clock policy }
{
    matches!(policy, ReplacementPolicy::Clock)
}

// An entry as it is laid in its slot.
pub fn fresh(e: TlbEntry, policy: ReplacementPolicy, age: u32) -> TlbEntry
    ensures { result ≡ fresh_of policy age e }
{
    TlbEntry {
        valid: true,
        age,
        ref_bit: is_clock(policy) || e.ref_bit,
        ..e
    }
}

// Whether an age takes the place of the best so far where the smallest is wanted: the first of them stays.
pub fn is_lower(age: u32, best: u32) -> bool
    ensures { result ≡ better_of false age best }
{
    age < best
}

// And where the greatest is wanted: the last of them is taken.
pub fn is_no_lower(age: u32, best: u32) -> bool
    ensures { result ≡ better_of true age best }
{
    best <= age
}

// Ways are at least 1.
pub fn ways_of(associativity: u8) -> usize
    ensures { result ≡ ways_for associativity }
{
    usize::from(associativity.max(1))
}

// The least power of two that is at least n.
#[tactic(auto, using(crate::proofs::PowUp::least_is))]
pub fn pow_up(n: u16) -> u32
    ensures { result ≡ pow_up 16 1 n }
{
    u32::from(n).next_power_of_two()
}

// The entries that a configuration gives: more than 16 bits, at the most 65790.
#[tactic(auto, unfolding(crate::specs::Geometry::entries_for))]
pub fn entries_for(count: u16, ways: u8) -> usize
    ensures { result ≡ entries_for count ways }
{
    let w = ways_of(ways);
    let most = (pow_up(count.max(1)) as usize).max(w);
    (most + (w - 1)) / w * w
}

// The sets that they make.
#[tactic(auto, unfolding(crate::specs::Geometry::sets_for))]
pub fn sets_for(count: u16, ways: u8) -> usize
    ensures { result ≡ sets_for count ways }
{
    entries_for(count, ways) / ways_of(ways)
}

// The set that a page of a class lives in.
pub fn set_for(sets: usize, vpn: u64, mask_bits: u8) -> usize
    requires { 0 < sets }
    ensures { result ≡ (vpn / 2 ^ mask_bits) % sets }
{
    (bits::shr64(vpn, mask_bits) as usize) % sets
}
