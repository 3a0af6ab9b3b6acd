// Walks, as a script asks for them: each check failing in its order, leaves at every level, the wrap at 2^32, machine mode, and marks written
// only if missing. The first lines of stdin say what its letters stand for. The bought Rust was run on the same walks where none is refused,
// and stdout holds its answers; refusals, the words asked for and the reasons of faults are document 01's.
#![tactic(auto)]

use scheme::PagingScheme;
use script::Step;

// What walks are made under: the scheme, the root table's frame, and how many bytes of RAM there are.
#[derive(Clone, Copy)]
struct Setting {
    scheme: PagingScheme,
    root: u64,
    size: usize,
}

fn walked(rt: &impl Print, t: &Setting, ram: &mut [u8], s: Step) {
    let Some(ram) = ram.get_mut(..t.size) else {
        return;
    };
    let access = tell::asked(s.a, s.b, s.c);
    tell::say_walked(rt, ram, t.scheme, t.root, access, s.d, s.wide);
}

// Does what a line asks for.
fn perform(rt: &impl Print, t: &mut Setting, ram: &mut [u8], s: Step) {
    match s.op {
        b'z' => ram.fill(0),
        b'w' => tell::put(ram, s.a, s.b, s.wide),
        b'a' => walked(rt, t, ram, s),
        b'p' => t.scheme = tell::scheme_of(s.a, s.b, s.c),
        b'r' => t.root = s.a,
        b'm' => t.size = s.a as usize,
        _ => script::say_bad_line(rt),
    }
}

fn main(rt: HostRuntime) {
    let mut ram = [0u8; 65536];
    let mut t = Setting {
        scheme: PagingScheme::sv32(),
        root: 0,
        size: 0,
    };
    script::say_run(&rt, |s| perform(&rt, &mut t, &mut ram, s));
}
