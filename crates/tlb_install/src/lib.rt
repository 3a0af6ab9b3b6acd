// An install into the TLB: the slot that answers for the page, a free one, or the policy's victim. The state goes in by value and comes back.
#![tactic(auto)]

ghost use Rattle.std.specs.Prelude.{◌≡◌, ◌+◌, ◌<◌, ◌≤◌};
ghost use Rattle.tlb.specs.Cache.{store_at, clock_in, victim_in, replace_in, install_new};
ghost use Rattle.tlb.specs.State.{Geo, cache_of, with_cache, tlb_install};

use entry::TlbEntry;
use slots::Swept;
use tlb::Tlb;

// The slots of one set: `ways` of them, from `start` on. `set` is its number.
#[derive(Clone, Copy)]
struct Row {
    set: usize,
    start: usize,
    ways: usize,
    ghost in_array: { (set < 128) × (start + ways ≤ 128) × (0 < ways) },
}

// The entry laid in slot i, one age on.
#[tactic(auto, unfolding(tlb::specs::Cache::store_at))]
fn store(t: &mut Tlb, i: usize, e: TlbEntry)
    requires { i < 128 }
    ensures { t.new ≡ with_cache t.old (store_at t.old.config.replacement i e (cache_of t.old)) }
{
    let age = t.age_counter.wrapping_add(1);
    t.entries[i] = entry::fresh(e, t.config.replacement, age);
    t.age_counter = age;
}

// The clock's choice in a set, with the hand moved one past it.
#[tactic(auto, unfolding(tlb::specs::Cache::clock_in))]
fn clock_victim(t: &mut Tlb, row: Row) -> usize
    ensures within { result < 128 }
    ensures at { result ≡ (clock_in row.set row.start row.ways (cache_of t.old)).at }
    ensures after { t.new ≡ with_cache t.old (clock_in row.set row.start row.ways (cache_of t.old)).cache }
{
    let hand = usize::from(t.clock_hands[row.set]) % row.ways;
    let Swept { at, entries } = slots::clock_scan(t.entries, row.start, row.ways, hand);
    t.entries = entries;
    t.clock_hands[row.set] = ((at + 1) % row.ways) as u8;
    row.start + at
}

// The slot that a full set gives up.
#[tactic(auto, unfolding(tlb::specs::Cache::victim_in))]
fn victim(t: &mut Tlb, row: Row) -> usize
    ensures within { result < 128 }
    ensures at { result ≡ (victim_in t.old.config.replacement row.set row.start row.ways (cache_of t.old)).at }
    ensures after { t.new ≡ with_cache t.old (victim_in t.old.config.replacement row.set row.start row.ways (cache_of t.old)).cache }
{
    let policy = t.config.replacement;
    if entry::is_clock(policy) {
        clock_victim(t, row)
    } else {
        slots::quiet_victim(t.entries, policy, t.age_counter, row.start, row.ways)
    }
}

// The entry over the victim's, and the eviction counted.
#[tactic(auto, unfolding(tlb::specs::Cache::replace_in, tlb::specs::Cache::evicted))]
fn replace(t: &mut Tlb, row: Row, e: TlbEntry)
    ensures { t.new ≡ with_cache t.old (replace_in t.old.config.replacement row.set row.start row.ways e (cache_of t.old)) }
{
    let at = victim(t, row);
    t.stats.evictions = t.stats.evictions.wrapping_add(1);
    store(t, at, e);
}

// A page that the set does not hold: the first free slot, or one that is given up.
fn install_new(t: &mut Tlb, row: Row, e: TlbEntry)
    ensures { t.new ≡ with_cache t.old (install_new t.old.config.replacement row.set row.start row.ways e (cache_of t.old)) }
{
    match slots::first_slot(
        t.entries,
        row.start,
        row.start + row.ways,
        |slot| !slot.valid,
    ) {
        Some(i) => store(t, i, e),
        None => replace(t, row, e),
    }
}

// The entry goes to the slot that already answers for its page, else to a new one.
pub fn install(t: Tlb, e: TlbEntry) -> Tlb
    requires { Geo t }
    ensures { result ≡ tlb_install t e }
{
    let ways = entry::ways_of(t.config.associativity);
    let set = entry::set_for(t.sets, e.vpn, e.mask_bits);
    let start = set * ways;
    let row = Row { set, start, ways };
    let mut u = t;
    match slots::first_slot(
        u.entries,
        start,
        start + ways,
        |slot| entry::matches(*slot, e.vpn, e.asid),
    ) {
        Some(i) => store(&mut u, i, e),
        None => install_new(&mut u, row, e),
    }
    u
}
