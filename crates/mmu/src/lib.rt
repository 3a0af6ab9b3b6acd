// The MMU's published calls. Each tests that the state is fit, and refuses or goes on to the core.
#![tactic(auto)]

ghost use Rattle.std.specs.Prelude.{◌≡◌, true};
ghost use Rattle.scheme.specs.Scheme.{leaf_masks};
ghost use Rattle.state.specs.State.{state_new, with_scheme};
ghost use Rattle.mmu.specs.Calls.{granted_with, refused_with, new_of, set_scheme_of, reconfigure_of, flush_of, flush_vaddr_of, stopped, translate_of, translate_ram, room_for};

use access::{Answer, Denied, Served};
use entry::TlbConfig;
use scheme::{LeafMasks, PagingScheme, Refusal, Satp, SatpMode};
use state::Mmu;
use walk::Access;

// A call that changes the state: whether it was granted, and the state.
// Not a Result: a refusal hands the state back too, as document 01 says.
#[derive(Clone, Copy)]
pub struct Kept {
    pub said: Result<(), Refusal>,
    pub mmu: Mmu,
}

fn granted(m: Mmu) -> Kept
    ensures { result ≡ granted_with m }
{
    Kept {
        said: Ok(()),
        mmu: m,
    }
}

// A refusal hands the state back as it came.
fn refused(why: Refusal, m: Mmu) -> Kept
    ensures { result ≡ refused_with why m }
{
    Kept {
        said: Err(why),
        mmu: m,
    }
}

// Whether a configuration's entries fit the array.
fn has_room(c: TlbConfig) -> bool
    ensures { result ≡ room_for c }
{
    entry::entries_for(c.entry_count, c.associativity) <= 128
}

#[tactic(auto, unfolding(state::specs::State::state_new))]
fn made_new(config: TlbConfig) -> Mmu
    requires { room_for config ≡ true }
    ensures { result ≡ state_new config }
{
    Mmu {
        tlb: tlb::new(config),
        scheme: PagingScheme::sv32(),
        satp: Satp::new(0),
        enabled: false,
        force_translate: false,
        tlb_enabled: true,
    }
}

// An MMU with an empty TLB, or refusal 2 and the default one.
#[tactic(auto, using(crate::proofs::Refusing::default_room), unfolding(crate::specs::Calls::new_of))]
pub fn new(config: TlbConfig) -> Kept
    ensures { result ≡ new_of config }
{
    if has_room(config) {
        return granted(made_new(config));
    }
    refused(Refusal::TooManyEntries, made_new(entry::default_config()))
}

// The state with a scheme and the classes that it gives out.
#[tactic(auto, using(state::proofs::Fitness::masks_of), unfolding(state::specs::State::with_scheme))]
fn adopt(m: Mmu, s: PagingScheme, c: LeafMasks) -> Mmu
    requires { leaf_masks s ≡ Ok c }
    ensures { result ≡ with_scheme m s }
{
    Mmu {
        tlb: tlb::set_scheme(m.tlb, s.offset_bits, c.masks, usize::from(c.count)),
        scheme: s,
        ..m
    }
}

// Adopts a paging scheme; entries stay. Refusals 3, then 1.
// Kept the test of a fit state in each of four calls: one function over a closure proved, but copied the 4 KB state more often, and was slower.
#[tactic(auto, using(state::proofs::Fitness::masks_of, state::proofs::Fitness::no_masks), unfolding(crate::specs::Calls::set_scheme_of))]
pub fn set_scheme(m: Mmu, s: PagingScheme) -> Kept
    ensures { result ≡ set_scheme_of m s }
{
    if !state::fits(m) {
        return refused(Refusal::Unfit, m);
    }
    let Ok(c) = s.leaf_masks() else {
        return refused(Refusal::BadScheme, m);
    };
    granted(adopt(m, s, c))
}

// Starts the TLB afresh with another configuration; the rest stays. Refusals 3, then 2.
#[tactic(auto, unfolding(crate::specs::Calls::reconfigure_of))]
pub fn reconfigure(m: Mmu, config: TlbConfig) -> Kept
    ensures { result ≡ reconfigure_of m config }
{
    if !state::fits(m) {
        return refused(Refusal::Unfit, m);
    }
    if !has_room(config) {
        return refused(Refusal::TooManyEntries, m);
    }
    granted(Mmu {
        tlb: tlb::reconfigure(m.tlb, config),
        ..m
    })
}

// Clears every entry's valid mark. Refusal 3.
#[tactic(auto, unfolding(crate::specs::Calls::flush_of))]
pub fn flush(m: Mmu) -> Kept
    ensures { result ≡ flush_of m }
{
    if !state::fits(m) {
        return refused(Refusal::Unfit, m);
    }
    // A field put into a copy: with struct update one more state of 4 KB is zeroed at each call.
    let mut n = m;
    n.tlb = tlb_probe::flush(m.tlb);
    granted(n)
}

// Clears the valid marks of the entries that answer for an address, in any address space. Refusal 3.
#[tactic(auto, unfolding(crate::specs::Calls::flush_vaddr_of))]
pub fn flush_vaddr(m: Mmu, vaddr: u64) -> Kept
    ensures { result ≡ flush_vaddr_of m vaddr }
{
    if !state::fits(m) {
        return refused(Refusal::Unfit, m);
    }
    granted(Mmu {
        tlb: tlb_probe::flush_vaddr(m.tlb, vaddr),
        ..m
    })
}

fn stop(why: Refusal, m: Mmu) -> Served
    ensures { result ≡ stopped why m }
{
    Served {
        said: Answer {
            words: 0,
            outcome: Err(Denied::Refused(why)),
        },
        mmu: m,
    }
}

// Translates an access: the address and the stall, or the page fault. Refusals 3, then 10.
#[tactic(auto, unfolding(crate::specs::Calls::mode_known, crate::specs::Calls::translate_of, crate::specs::Calls::translate_ram))]
pub fn translate(m: Mmu, q: Access, ram: &mut [u8]) -> Served
    ensures { (result ≡ translate_of m q ram.old) × (ram.new ≡ translate_ram m q ram.old) }
{
    if !state::fits(m) {
        return stop(Refusal::Unfit, m);
    }
    if matches!(m.scheme.satp_mode(m.satp), SatpMode::Neither) {
        return stop(Refusal::BadMode, m);
    }
    serve::serve(m, q, ram)
}
