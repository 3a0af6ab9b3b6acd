// Searches and changes over the TLB's array of slots: each has one loop, over the slots of a set or over the first n.
#![tactic(auto)]

ghost use Rattle.std.specs.Prelude.{◌≡◌, ◌+◌, ◌≤◌, ◌<◌, Bool, IfSome};
ghost use Rattle.entry.specs.declared.TlbEntry.{TlbEntry};
ghost use Rattle.slots.specs.Slots.{Tells, Ranks, first_in, best_in, quiet_in, clock_from, cleared_where, map_in, classes_fit};

use entry::{ReplacementPolicy, TlbEntry};

// The slot that the clock takes, by its place in the set, and the slots as its hand leaves them.
#[derive(Clone, Copy)]
pub struct Swept {
    pub at: usize,
    pub entries: [TlbEntry; 128],
}

// The first slot from start up to end that passes a test.
pub fn first_slot<F: Fn(&TlbEntry) -> bool>(
    es: [TlbEntry; 128],
    start: usize,
    end: usize,
    passes: F,
) -> Option<usize>
    requires range { (start ≤ end) × (end ≤ 128) }
    requires callable { F.IsAlwaysCallable passes }
    ensures within { IfSome result (λ i. i < end) }
    ensures first { (p : TlbEntry → Bool) → Tells F.Fn passes p → result ≡ first_in p es start end }
{
    // Kept a for loop: with `(start..end).find(..)` the goal `returns-clause-first` stayed open.
    for i in start..end {
        if passes(&es[i]) {
            return Some(i);
        }
    }
    None
}

// The slot whose age is better than each before it, and not bettered after.
pub fn best_slot<F: Fn(u32, u32) -> bool>(
    es: [TlbEntry; 128],
    start: usize,
    end: usize,
    better: F,
) -> usize
    requires range { (start < end) × (end ≤ 128) }
    requires callable { F.IsAlwaysCallable better }
    ensures within { result < end }
    ensures best { (newest : Bool) → Ranks F.Fn better newest → result ≡ best_in newest es start end }
{
    let mut best = start;
    // Kept a for loop: a fold over the same range carries the same place and compares the same two ages.
    for i in start + 1..end {
        if better(es[i].age, es[best].age) {
            best = i;
        }
    }
    best
}

// The slot that a full set gives up where looking changes nothing: for every policy but Clock. `counter` is the age counter.
pub fn quiet_victim(
    es: [TlbEntry; 128],
    policy: ReplacementPolicy,
    counter: u32,
    start: usize,
    ways: usize,
) -> usize
    requires { (start + ways ≤ 128) × (0 < ways) }
    ensures within { result < start + ways }
    ensures victim { result ≡ quiet_in policy counter start ways es }
{
    match policy {
        ReplacementPolicy::Lru | ReplacementPolicy::Fifo | ReplacementPolicy::Lfu => best_slot(
            es,
            start,
            start + ways,
            entry::is_lower,
        ),
        ReplacementPolicy::Mru => best_slot(es, start, start + ways, entry::is_no_lower),
        ReplacementPolicy::Clock => start,
        ReplacementPolicy::Random => start + (counter as usize) % ways,
    }
}

// Once round the set from a hand on, clearing reference bits, to the first slot whose bit is clear.
pub fn clock_scan(es: [TlbEntry; 128], start: usize, ways: usize, from: usize) -> Swept
    requires { (start + ways ≤ 128) × (from < ways) }
    ensures within { result.at < ways }
    ensures round { result ≡ clock_from ways start ways from es }
{
    let mut us = es;
    let mut hand = from;
    for _turn in 0..ways {
        if !us[start + hand].ref_bit {
            break;
        }
        us[start + hand].ref_bit = false;
        hand = (hand + 1) % ways;
    }
    Swept {
        at: hand,
        entries: us,
    }
}

// Of the n slots from start on, those that pass a test are flushed.
pub fn flush_slots<F: Fn(&TlbEntry) -> bool>(
    es: [TlbEntry; 128],
    start: usize,
    n: usize,
    goes: F,
) -> [TlbEntry; 128]
    requires range { start + n ≤ 128 }
    requires callable { F.IsAlwaysCallable goes }
    ensures { (p : TlbEntry → Bool) → Tells F.Fn goes p → result ≡ map_in (cleared_where p) start n es }
{
    let mut us = es;
    for e in us[start..start + n].iter_mut() {
        if goes(e) {
            e.valid = false;
        }
    }
    us
}

// Whether no class among the first n slots is above 19. No early return: a fit cache is the common case.
#[tactic(auto, unfolding(crate::specs::Slots::classes_fit))]
pub fn classes_fit(es: [TlbEntry; 128], n: usize) -> bool
    requires { n ≤ 128 }
    ensures { result ≡ classes_fit n es }
{
    let mut fit = true;
    for e in &es[..n] {
        fit &= e.mask_bits <= 19;
    }
    fit
}
