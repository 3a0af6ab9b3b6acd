// One access on a fit state, and the parts of its answer that ask neither the TLB nor RAM: who passes, the tallies, the answer of a found
// entry, and what a walk is remembered as.
#![tactic(auto)]

ghost use Rattle.std.specs.Prelude.{◌≡◌, ◌<◌};
ghost use Rattle.state.specs.State.{with_tlb};
ghost use Rattle.access.specs.Translate.{passes_with, tallied, decides, ok_at, fault_of, found_served, made_with};

use entry::TlbEntry;
use scheme::{AccessType, PagingScheme, PrivMode, Refusal, Satp, SatpMode};
use state::Mmu;
use tlb::Tlb;
use walk::{Access, PageFault, WalkResult};

// A physical address, and how long the access stalls.
#[derive(Clone, Copy)]
pub struct Place {
    pub paddr: u64,
    pub stall: u8,
}

// Why an access gets no address: a page fault, or a refusal of the call.
#[derive(Clone, Copy)]
pub enum Denied {
    Fault(PageFault),
    Refused(Refusal),
}

// What translate answers, with the words that a walk asked for: 0 where no walk was made.
#[derive(Clone, Copy)]
pub struct Answer {
    pub words: u32,
    pub outcome: Result<Place, Denied>,
}

// Not a Result: a refusal hands the state back too, as document 01 says.
#[derive(Clone, Copy)]
pub struct Served {
    pub said: Answer,
    pub mmu: Mmu,
}

// What the TLB has to say of an access: an entry that decides it, or nothing; and the state after the probe.
#[derive(Clone, Copy)]
pub struct Consulted {
    pub lookup: Option<TlbEntry>,
    pub mmu: Mmu,
}

// Whether an access is handed its own address.
pub fn passes(s: PagingScheme, enabled: bool, force: bool, satp: Satp, mode: PrivMode) -> bool
    ensures { result ≡ passes_with s enabled force satp.raw mode }
{
    let bare = matches!(s.satp_mode(satp), SatpMode::Bare);
    let machine = matches!(mode, PrivMode::M);
    !enabled || bare || (machine && !force)
}

// So many hits, misses and page faults more.
#[tactic(auto, unfolding(crate::specs::Translate::tallied))]
fn tally(mut t: Tlb, hits: u64, misses: u64, faults: u64) -> Tlb
    ensures { result ≡ tallied hits misses faults t }
{
    t.stats.hits = t.stats.hits.wrapping_add(hits);
    t.stats.misses = t.stats.misses.wrapping_add(misses);
    t.stats.page_faults = t.stats.page_faults.wrapping_add(faults);
    t
}

pub fn counted(m: Mmu, hits: u64, misses: u64, faults: u64) -> Mmu
    ensures { result ≡ with_tlb m (tallied hits misses faults m.tlb) }
{
    Mmu {
        tlb: tally(m.tlb, hits, misses, faults),
        ..m
    }
}

// An entry that answers without a walk: a store on one that is not dirty walks, so that D is set in RAM.
pub fn decide(found: Option<TlbEntry>, q: Access) -> Option<TlbEntry>
    ensures { result ≡ decides q found }
{
    found.filter(|e| e.dirty || !matches!(q.kind, AccessType::Store))
}

pub fn ok_at(words: u32, paddr: u64, stall: u8) -> Answer
    ensures { result ≡ ok_at words paddr stall }
{
    Answer {
        words,
        outcome: Ok(Place { paddr, stall }),
    }
}

pub fn fault(words: u32, q: Access) -> Answer
    ensures { result ≡ fault_of words q }
{
    Answer {
        words,
        outcome: Err(Denied::Fault(PageFault {
            cause: q.kind.page_fault_cause(),
            vaddr: q.vaddr,
        })),
    }
}

// The answer of an entry that decides: a hit, or a page fault that is neither hit nor miss.
#[tactic(auto, using(scheme::proofs::Levels::modest), unfolding(crate::specs::Translate::found_served))]
pub fn serve_found(m: Mmu, e: TlbEntry, q: Access) -> Served
    ensures { result ≡ found_served m e q }
{
    if walk::permits(e.perms, q.kind) && walk::open_to(e.perms, q.mode) {
        let page_bits = u32::from(m.scheme.offset_bits) + u32::from(e.mask_bits);
        let paddr = walk::build_paddr(m.scheme.format(), e.ppn, page_bits, q.vaddr);
        return Served {
            said: ok_at(0, paddr, m.tlb.config.hit_latency),
            mmu: counted(m, 1, 0, 0),
        };
    }
    Served {
        said: fault(0, q),
        mmu: counted(m, 0, 0, 1),
    }
}

// What a walk's result is remembered as.
pub fn made(offset: u8, asid: u16, q: Access, r: WalkResult) -> TlbEntry
    requires { r.page_bits < 32 }
    ensures { result ≡ made_with offset asid q r }
{
    let class = r.page_bits.saturating_sub(u32::from(offset));
    let vpn = bits::with_low(bits::shr64(q.vaddr, offset), 0, class);
    let perms = r.perms;
    let mask_bits = class as u8;
    TlbEntry {
        vpn,
        ppn: r.ppn,
        age: 0,
        asid,
        perms,
        valid: true,
        global: r.global,
        accessed: true,
        dirty: matches!(q.kind, AccessType::Store),
        mask_bits,
        ref_bit: false,
    }
}
