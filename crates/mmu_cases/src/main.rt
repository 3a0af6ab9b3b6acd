// The MMU's calls, as a script asks for them: victims of each policy, what the TLB holds and gives up, schemes, switches, refusals. The first
// lines of stdin say what its letters stand for. The bought Rust was run on the same calls where none is refused, and stdout holds its
// answers; refusals and the words asked for are document 01's.
#![tactic(auto)]

use mmu::Kept;
use script::Step;
use state::Mmu;

// A call that is granted or refused. Apart from `perform`, which pays for its locals at every line: a state has 4 KB.
fn call(m: &Mmu, s: Step) -> Kept {
    match s.op {
        b'n' => mmu::new(mmu_tell::config(s.a, s.b, s.c)),
        b'p' => mmu::set_scheme(*m, tell::scheme_of(s.a, s.b, s.c)),
        b'r' => mmu::reconfigure(*m, mmu_tell::config(s.a, s.b, s.c)),
        b'f' => mmu::flush(*m),
        _ => mmu::flush_vaddr(*m, s.a),
    }
}

// Does what a line asks for.
fn perform(rt: &impl Print, m: &mut Mmu, ram: &mut [u8], s: Step) {
    match s.op {
        b'z' => ram.fill(0),
        b'w' => tell::put(ram, s.a, s.b, s.wide),
        b'i' => mmu_tell::say_slot(rt, m, s.a),
        b'c' => mmu_tell::say_tallies(rt, m),
        b'a' => *m = mmu_tell::say_access(rt, *m, ram, tell::asked(s.a, s.b, s.c)),
        b'n' | b'p' | b'r' | b'f' | b'v' => *m = mmu_tell::say_kept(rt, call(m, s)),
        b's' => m.satp.raw = s.a,
        b'e' => {
            m.enabled = s.a & 1 != 0;
            m.force_translate = s.a & 2 != 0;
            m.tlb_enabled = s.a & 4 != 0;
        }
        b'g' => m.tlb.age_counter = script::low(s.a),
        b'k' => m.tlb.entries[(s.b % 128) as usize].mask_bits = (s.a % 256) as u8,
        b'q' => m.tlb.count = s.a as usize,
        _ => script::say_bad_line(rt),
    }
}

fn main(rt: HostRuntime) {
    let mut ram = [0u8; 65536];
    let mut m = mmu::new(entry::default_config()).mmu;
    script::say_run(&rt, |s| perform(&rt, &mut m, &mut ram, s));
}
