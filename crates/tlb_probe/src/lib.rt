// A probe of the TLB and its flushes: both visit the sets of the page classes in turn. The state goes in by value and comes back, the answer first.
#![tactic(auto)]

ghost use Rattle.std.specs.Prelude.{◌≡◌, ◌<◌, ◌≤◌, IfSome};
ghost use Rattle.tlb.specs.Cache.{touch_at, find_from};
ghost use Rattle.tlb.specs.State.{Geo, cache_of, shape_of, probed_with, tlb_probe, tlb_flush, tlb_flush_page, tlb_flush_vaddr};

use tlb::{Probed, Tlb};

// The entry in slot i is found: one age on, and the policy's mark.
#[tactic(auto, unfolding(tlb::specs::Cache::touch_at))]
fn touch(t: Tlb, i: usize) -> Probed
    requires { i < 128 }
    ensures { result ≡ probed_with t (touch_at t.config.replacement i (cache_of t)) }
{
    let age = t.age_counter.wrapping_add(1);
    let mut u = t;
    let e = entry::touched(u.entries[i], u.config.replacement, age);
    u.entries[i] = e;
    u.age_counter = age;
    Probed {
        lookup: Some(e),
        tlb: u,
    }
}

// The first slot that answers, in the sets of the page classes in turn.
fn find(t: &Tlb, vpn: u64, asid: u16) -> Option<usize>
    requires geo { Geo t.now }
    // Two clauses and no invariant: a host may hand in any state.
    requires mask_count_bound { t.now.mask_count ≤ 4 }
    ensures within { IfSome result (λ i. i < 128) }
    ensures first { result ≡ find_from (shape_of t.now) (shape_of t.now).classes vpn asid t.now.entries }
{
    let ways = entry::ways_of(t.config.associativity);
    for class in &t.superpage_masks[..t.mask_count] {
        let start = entry::set_for(t.sets, vpn, *class) * ways;
        if let Some(i) = slots::first_slot(
            t.entries,
            start,
            start + ways,
            |e| entry::matches(*e, vpn, asid),
        ) {
            return Some(i);
        }
    }
    None
}

// A probe: the found entry is touched; a miss changes nothing.
#[tactic(auto, unfolding(tlb::specs::State::tlb_probe, tlb::specs::Cache::probe_in))]
pub fn probe(t: Tlb, vpn: u64, asid: u16) -> Probed
    requires geo { Geo t }
    requires mask_count_bound { t.mask_count ≤ 4 }
    ensures { result ≡ tlb_probe t vpn asid }
{
    match find(&t, vpn, asid) {
        Some(i) => touch(t, i),
        None => Probed {
            lookup: None,
            tlb: t,
        },
    }
}

// Every entry's valid mark goes.
pub fn flush(t: Tlb) -> Tlb
    requires { Geo t }
    ensures { result ≡ tlb_flush t }
{
    let mut u = t;
    u.entries = slots::flush_slots(t.entries, 0, t.count, |_| true);
    u
}

// Every entry that answers for the page goes, in any address space, from the sets that a probe of it visits.
pub fn flush_page(t: Tlb, vpn: u64) -> Tlb
    requires geo { Geo t }
    requires mask_count_bound { t.mask_count ≤ 4 }
    ensures { result ≡ tlb_flush_page t vpn }
{
    let ways = entry::ways_of(t.config.associativity);
    let mut entries = t.entries;
    for class in &t.superpage_masks[..t.mask_count] {
        let first = entry::set_for(t.sets, vpn, *class) * ways;
        // In two steps: the borrow checker does not cover a call whose array goes straight into a variable.
        let flushed = slots::flush_slots(entries, first, ways, |e| entry::matches(*e, vpn, e.asid));
        entries = flushed;
    }
    Tlb { entries, ..t }
}

// The same for the page of an address.
#[tactic(auto, unfolding(tlb::specs::State::tlb_flush_vaddr))]
pub fn flush_vaddr(t: Tlb, vaddr: u64) -> Tlb
    requires geo { Geo t }
    requires mask_count_bound { t.mask_count ≤ 4 }
    ensures { result ≡ tlb_flush_vaddr t vaddr }
{
    flush_page(t, bits::shr64(vaddr, t.offset_bits))
}
