// One MMU is kept for a session and lent to each of the host's calls, as a script asks for it. The first lines of stdin say what its letters
// stand for. The bought Rust was run on the same calls where none is refused, and stdout holds its answers; refusals and words are
// document 01's.
#![tactic(auto)]

use mmu::Kept;
use script::Step;
use show::say;
use state::Mmu;

// The first slots, the tallies, how many entries there are, and the page offset's width.
fn state(rt: &impl Print, m: &Mmu) {
    mmu_tell::say_slot(rt, m, 0);
    mmu_tell::say_slot(rt, m, 1);
    mmu_tell::say_tallies(rt, m);
    say!(rt; "  entries {} offset {}\n", m.tlb.count, m.scheme.offset_bits);
}

// What a call was answered, and the state that it left.
fn call(rt: &impl Print, name: &str, k: Kept) {
    say!(rt; "{name}");
    state(rt, &mmu_tell::say_kept(rt, k));
}

// Page 2 is in the TLB before the session, so that a flush of page 1 leaves something to the flush of all. A count that is not what the
// configuration gives makes the state unfit.
fn started(rt: &impl Print, ram: &mut [u8], count: u64) -> Mmu {
    let mut m = mmu_tell::say_kept(rt, mmu::new(mmu_tell::config(4, 4, 0)));
    m.satp.raw = 0x8000_0001;
    m.enabled = true;
    let mut m = mmu_tell::say_access(rt, m, ram, tell::asked(0x2000, 1, 0));
    m.tlb.count = count as usize;
    m
}

// A session with page 1 looked up and flushed, and the leaf's word at its end.
fn session(rt: &impl Print, ram: &mut [u8], s: Step) {
    let q = tell::asked(0x1234, 1, 0);
    let config = mmu_tell::config(s.b / 0x1_0000, s.b / 0x100, s.b % 0x100);
    let scheme = tell::scheme_of(s.d / 0x100, s.d, s.c);
    let m = started(rt, ram, s.a);
    let r = lending::run_session(m, q, 0x1fff, scheme, config, ram);
    mmu_tell::say_answered(rt, q, r.translated.said);
    state(rt, &r.translated.mmu);
    call(rt, "flush 1fff", r.dropped);
    call(rt, "flush", r.flushed);
    call(rt, "set_scheme", r.adopted);
    call(rt, "reconfigure", r.restarted);
    tell::say_word(rt, ram, 0x2004, false);
    say!(rt; "\n");
}

fn perform(rt: &impl Print, ram: &mut [u8], s: Step) {
    match s.op {
        b'w' => tell::put(ram, s.a, s.b, s.wide),
        b'h' => session(rt, ram, s),
        _ => script::say_bad_line(rt),
    }
}

fn main(rt: HostRuntime) {
    let mut ram = [0u8; 65536];
    script::say_run(&rt, |s| perform(&rt, &mut ram, s));
}
