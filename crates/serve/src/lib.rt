// One access on a fit state: what the TLB has to say of it, and the walk where it has nothing to say. `Ready` stands in each contract and is no
// invariant of the state: `mmu` answers for unfit states too, with refusal 3.
#![tactic(auto)]

ghost use Rattle.std.specs.Prelude.{◌≡◌, cond, ◌<◌};
ghost use Rattle.scheme.specs.Satp.{asid_of};
ghost use Rattle.scheme.specs.Scheme.{format_of};
ghost use Rattle.walk.specs.Answer.{marked_by};
ghost use Rattle.tlb.specs.State.{tlb_install};
ghost use Rattle.state.specs.State.{Ready, with_tlb};
ghost use Rattle.access.specs.Translate.{tallied, consult_of, made_with, walk_served, miss_walk, served_of, served_ram};

use access::{Consulted, Served};
use state::Mmu;
use walk::{Access, WalkResult};

// Asks the TLB, if it is on.
#[tactic(auto, unfolding(access::specs::Translate::consult_of))]
fn consult(m: Mmu, q: Access) -> Consulted
    requires { Ready m }
    ensures { result ≡ consult_of m q }
{
    if !m.tlb_enabled {
        return Consulted {
            lookup: None,
            mmu: m,
        };
    }
    let vpn = bits::shr64(q.vaddr, m.scheme.offset_bits);
    let asid = m.scheme.asid_of(m.satp);
    let p = tlb_probe::probe(m.tlb, vpn, asid);
    Consulted {
        lookup: access::decide(p.lookup, q),
        mmu: Mmu { tlb: p.tlb, ..m },
    }
}

// A miss whose walk came to a page: counted, and installed if the TLB is on.
#[tactic(auto, using(crate::proofs::Serving::tallied_geo))]
fn remember(m: Mmu, q: Access, r: WalkResult) -> Mmu
    requires { Ready m × (r.page_bits < 32) }
    ensures { result ≡ with_tlb m (cond m.tlb_enabled (tlb_install (tallied 0 1 0 m.tlb) (made_with m.scheme.offset_bits (asid_of m.scheme m.satp.raw) q r)) (tallied 0 1 0 m.tlb)) }
{
    let n = access::counted(m, 0, 1, 0);
    if !m.tlb_enabled {
        return n;
    }
    let e = access::made(m.scheme.offset_bits, m.scheme.asid_of(m.satp), q, r);
    Mmu {
        tlb: tlb_install::install(n.tlb, e),
        ..n
    }
}

// The TLB has nothing to say: the walk answers.
#[tactic(auto, using(crate::proofs::Serving::page_small, crate::proofs::Serving::served_ok, crate::proofs::Serving::served_err))]
fn miss(m: Mmu, q: Access, ram: &mut [u8]) -> Served
    requires { Ready m }
    ensures { (result ≡ walk_served m q (miss_walk m q ram.old)) × (ram.new ≡ marked_by (format_of m.scheme) q.kind ram.old (miss_walk m q ram.old)) }
{
    let s = m.scheme;
    let w = walk::walk_valid(s, s.root_of(m.satp), ram, q);
    match w.answer {
        Ok(r) => Served {
            said: access::ok_at(w.words, r.paddr, m.tlb.config.miss_penalty),
            mmu: remember(m, q, r),
        },
        Err(_) => Served {
            said: access::fault(w.words, q),
            mmu: access::counted(m, 0, 1, 1),
        },
    }
}

// Translates an access on a fit state.
#[tactic(auto, unfolding(access::specs::Translate::served_of, access::specs::Translate::served_ram))]
pub fn serve(m: Mmu, q: Access, ram: &mut [u8]) -> Served
    requires { Ready m }
    ensures { (result ≡ served_of m q ram.old) × (ram.new ≡ served_ram m q ram.old) }
{
    if access::passes(m.scheme, m.enabled, m.force_translate, m.satp, q.mode) {
        return Served {
            said: access::ok_at(0, q.vaddr, 0),
            mmu: m,
        };
    }
    let seen = consult(m, q);
    let Some(e) = seen.lookup else {
        return miss(seen.mmu, q, ram);
    };
    access::serve_found(seen.mmu, e, q)
}
