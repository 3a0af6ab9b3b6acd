// The map installer, as a script asks for it: each refusal's both sides, windows at 0, at the last page and across a table's edge, one to four
// levels, offsets that wrap, RAM that is not zero. The first lines of stdin say what its letters stand for. The bought Rust was run on the same
// maps under the relative rule where nothing is refused, and stdout holds its answers; refusals are document 01's, and what the absolute
// rule writes was worked out from it by a script of its own.
#![tactic(auto)]

use bundle::MapBody;
use scheme::PagingScheme;
use script::Step;
use show::{Hex, say};

// What maps are installed under: the scheme, the kind, flags and MiB of the map as the trace bundle has them, and what each byte of RAM is
// before.
#[derive(Clone, Copy)]
struct Setting {
    scheme: PagingScheme,
    kind: u64,
    flags: u64,
    mib: u64,
    fill: u8,
}

// A number that hangs on every byte of RAM and its place.
fn digest(ram: &[u8]) -> u32 {
    ram.iter().fold(
        0,
        |h: u32, b| h.wrapping_mul(31).wrapping_add(u32::from(*b)),
    )
}

// The map as the trace bundle would have it, read by its reader.
fn body(t: &Setting, s: Step) -> MapBody {
    let mut bytes = [0u8; 20];
    let head = s.d % 256 + 0x100 * (t.kind % 256) + 0x1_0000 * (t.flags % 256);
    tell::put(&mut bytes, 0, head, false);
    tell::put(&mut bytes, 4, t.mib, false);
    tell::put(&mut bytes, 8, s.a, false);
    tell::put(&mut bytes, 12, s.b, false);
    tell::put(&mut bytes, 16, s.c, false);
    bundle::body_at(&bytes, 0)
}

// Installs a map into 11000h bytes. Of what is left it prints the root's first word, the one at f000, where a root at 10000 has its first
// child, and the digest of all.
fn install(rt: &impl Print, t: &Setting, s: Step) {
    let mut ram = [t.fill; 69632];
    let b = body(t, s);
    let said = installer::install_map_scheme(&mut ram, b.root, t.scheme, b.spec, b.window);
    tell::say_said(rt, said);
    tell::say_word(rt, &ram, s.a, false);
    tell::say_word(rt, &ram, 0xf000, false);
    say!(rt; " {}\n", Hex(u64::from(digest(&ram))));
}

// Does what a line asks for.
fn perform(rt: &impl Print, t: &mut Setting, s: Step) {
    match s.op {
        b'p' => t.scheme = tell::scheme_of(s.a, s.b, s.c),
        b'k' => {
            t.kind = s.a;
            t.flags = s.b;
            t.mib = s.c;
        }
        b'z' => t.fill = (s.a % 256) as u8,
        b'i' => install(rt, t, s),
        _ => script::say_bad_line(rt),
    }
}

fn main(rt: HostRuntime) {
    let mut t = Setting {
        scheme: PagingScheme::sv32(),
        kind: 0,
        flags: 0,
        mib: 0,
        fill: 0,
    };
    script::say_run(&rt, |s| perform(&rt, &mut t, s));
}
