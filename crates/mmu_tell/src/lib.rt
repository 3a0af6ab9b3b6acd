// What the test programs print of the MMU: an access and its answer, a slot of the TLB, the tallies, a granted or refused call. As in `tell`,
// what prints is there twice: under its own name it answers the first write that fails, with `say_` before the name it drops it and goes on.
#![tactic(auto)]

ghost use Rattle.std.specs.Prelude.{◌≡◌, IfOk};
ghost use Rattle.mmu.specs.Calls.{translate_of, translate_ram};

use access::{Answer, Denied, Place};
use entry::TlbConfig;
use mmu::Kept;
use show::{Hex, YesNo, say};
use state::Mmu;
use std::io;
use walk::Access;

// A configuration with a hit latency of 1 and a miss penalty of 20, its policy by the trace bundle's number.
pub fn config(entries: u64, ways: u64, policy: u64) -> TlbConfig {
    TlbConfig {
        entry_count: (entries % 65536) as u16,
        associativity: (ways % 256) as u8,
        replacement: tell::code(policy).into(),
        hit_latency: 1,
        miss_penalty: 20,
    }
}

// The state that a call hands back, and whether it was granted.
pub fn kept(rt: &impl Print, k: Kept) -> io::Result<Mmu>
    ensures { IfOk result (λ m. m ≡ k.mmu) }
{
    tell::said(rt, k.said)?;
    println!(rt)?;
    Ok(k.mmu)
}

fn outcome(rt: &impl Print, q: Access, o: Result<Place, Denied>) -> io::Result<()> {
    match o {
        Ok(p) => {
            tell::who(rt, q, q.vaddr)?;
            print!(rt; " ok {} {}", Hex(p.paddr), p.stall)
        }
        Err(Denied::Fault(f)) => tell::fault(rt, q, f),
        Err(Denied::Refused(r)) => {
            tell::who(rt, q, q.vaddr)?;
            tell::refused(rt, r)
        }
    }
}

// What an access is answered: who asks, the answer, and the words that a walk asked for.
pub fn answered(rt: &impl Print, q: Access, said: Answer) -> io::Result<()> {
    outcome(rt, q, said.outcome)?;
    println!(rt; " words {}", said.words)
}

// The state that an access hands back, and its answer.
pub fn access(rt: &impl Print, m: Mmu, ram: &mut [u8], q: Access) -> io::Result<Mmu>
    ensures state { IfOk result (λ n. n ≡ (translate_of m q ram.old).mmu) }
    ensures ram { ram.new ≡ translate_ram m q ram.old }
{
    let s = mmu::translate(m, q, ram);
    answered(rt, q, s.said)?;
    Ok(s.mmu)
}

// Valid, VPN, PPN, ASID, class, age, dirty and reference bit.
pub fn slot(rt: &impl Print, m: &Mmu, at: u64) -> io::Result<()> {
    let e = m.tlb.entries[(at % 128) as usize];
    println!(rt;
        "  slot {} {} {} {} {} {} {} {}",
        YesNo(e.valid),
        Hex(e.vpn),
        Hex(e.ppn),
        e.asid,
        e.mask_bits,
        Hex(u64::from(e.age)),
        YesNo(e.dirty),
        YesNo(e.ref_bit)
    )
}

pub fn tallies(rt: &impl Print, m: &Mmu) -> io::Result<()> {
    let s = m.tlb.stats;
    println!(rt;
        "  hits {} misses {} faults {} evictions {}",
        s.hits, s.misses, s.page_faults, s.evictions
    )
}

// From here on a failed write is dropped where it is made.
pub fn say_kept(rt: &impl Print, k: Kept) -> Mmu {
    tell::say_said(rt, k.said);
    say!(rt; "\n");
    k.mmu
}

fn say_outcome(rt: &impl Print, q: Access, o: Result<Place, Denied>) {
    match o {
        Ok(p) => {
            tell::say_who(rt, q, q.vaddr);
            say!(rt; " ok {} {}", Hex(p.paddr), p.stall);
        }
        Err(Denied::Fault(f)) => tell::say_fault(rt, q, f),
        Err(Denied::Refused(r)) => {
            tell::say_who(rt, q, q.vaddr);
            tell::say_refused(rt, r);
        }
    }
}

pub fn say_answered(rt: &impl Print, q: Access, said: Answer) {
    say_outcome(rt, q, said.outcome);
    say!(rt; " words {}\n", said.words);
}

pub fn say_access(rt: &impl Print, m: Mmu, ram: &mut [u8], q: Access) -> Mmu {
    let s = mmu::translate(m, q, ram);
    say_answered(rt, q, s.said);
    s.mmu
}

pub fn say_slot(rt: &impl Print, m: &Mmu, at: u64) {
    let e = m.tlb.entries[(at % 128) as usize];
    say!(rt;
        "  slot {} {} {} {} {} {} {} {}\n",
        YesNo(e.valid),
        Hex(e.vpn),
        Hex(e.ppn),
        e.asid,
        e.mask_bits,
        Hex(u64::from(e.age)),
        YesNo(e.dirty),
        YesNo(e.ref_bit)
    );
}

pub fn say_tallies(rt: &impl Print, m: &Mmu) {
    let s = m.tlb.stats;
    say!(rt;
        "  hits {} misses {} faults {} evictions {}\n",
        s.hits, s.misses, s.page_faults, s.evictions
    );
}
