// Bits, entries, words of RAM, schemes, satp and the map's offset, as a script asks for them. The first lines of stdin say what its letters
// stand for. What it must print was worked out from documents 01 and 02, and stands in stdout.
#![tactic(auto)]

use script::Step;

mod fields;
mod schemes;
mod words;

fn perform(rt: &impl Print, ram: &mut [u8], s: Step) {
    match s.op {
        b'b' => fields::masks(rt, script::low(s.a), s.b, s.c),
        b'e' => fields::entry(rt, s.a, s.wide),
        b'w' => words::store(rt, ram, script::low(s.a), script::low(s.b), s.c),
        b'l' => words::load(rt, ram, script::low(s.a), s.c),
        b'p' => schemes::scheme(rt, tell::scheme_of(s.a, s.b, s.c)),
        b's' => schemes::satp(rt, s.a, s.wide),
        b'k' => schemes::made(rt, s.a, (s.b % 65536) as u16, s.wide),
        b'd' => schemes::delta(rt, s.a, s.b),
        _ => script::say_bad_line(rt),
    }
}

fn main(rt: HostRuntime) {
    let mut ram = [0u8; 4096];
    script::say_run(&rt, |s| perform(&rt, &mut ram, s));
}
