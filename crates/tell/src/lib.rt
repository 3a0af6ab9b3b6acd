// What the test programs print of walks: who asks, where the descent and the judgement end, and the answer. What prints is there twice: under
// its own name it answers the first write that fails, and prints no more; with `say_` before the name, as the test programs call it, it drops
// a failed write where that is made, and goes on (`show::say!`).
#![tactic(auto)]

ghost use Rattle.std.specs.Prelude.{◌≡◌, min};
ghost use Rattle.walk.specs.Answer.{walk_ram};

use bundle::Code;
use scheme::{PagingScheme, Refusal};
use show::{Hex, say};
use std::io;
use walk::{Access, Fault, PageFault, WalkAnswer, WalkResult};

// A word of four bytes, or of a 64-bit board's eight. `wide` is one bit of a script's line, and one `if` at each use.
pub fn put(ram: &mut [u8], at: u64, word: u64, wide: bool) {
    if wide {
        memory::store(ram, at, 8, 56, word);
    } else {
        memory::store(ram, at, 4, 32, word);
    }
}

fn byte(n: u64) -> u8 {
    (n % 256) as u8
}

// A scheme of up to four widths, a byte each, the top one first.
pub fn scheme_of(offset_bits: u64, levels: u64, widths: u64) -> PagingScheme {
    PagingScheme {
        offset_bits: byte(offset_bits),
        level_bits: ((widths % 0x1_0000_0000) as u32).to_be_bytes(),
        levels: byte(levels),
    }
}

// A script's number as one of a bundle's; those that no byte holds stand for what 255 does.
pub fn code(n: u64) -> Code
    ensures { result.0 ≡ min n 255 }
{
    Code(n.min(255) as u8)
}

// Who asks, by the numbers that the trace bundle has for kind and privilege.
pub fn asked(vaddr: u64, kind: u64, mode: u64) -> Access {
    Access {
        vaddr,
        kind: code(kind).into(),
        mode: code(mode).into(),
    }
}

// Who asks, and the address that the answer names: the one asked for, or a fault's own.
pub fn who(rt: &impl Print, q: Access, vaddr: u64) -> io::Result<()> {
    print!(rt; " {} {} {}", Hex(vaddr), q.kind, q.mode)
}

pub fn fault(rt: &impl Print, q: Access, f: PageFault) -> io::Result<()> {
    who(rt, q, f.vaddr)?;
    print!(rt; " fault {}", f.cause)
}

pub fn refused(rt: &impl Print, r: Refusal) -> io::Result<()> {
    print!(rt; " refused {}", r.number())
}

// Whether a call was granted.
pub fn said(rt: &impl Print, s: Result<(), Refusal>) -> io::Result<()> {
    match s {
        Ok(()) => print!(rt; " granted"),
        Err(r) => refused(rt, r),
    }
}

// The reason of a fault and its level, by the descent and the judgement alone.
fn verdict(
    rt: &impl Print,
    ram: &[u8],
    s: PagingScheme,
    root: u64,
    access: Access,
) -> io::Result<()> {
    let Ok(d) = walker::find(ram, root, s, access.vaddr) else {
        return Ok(());
    };
    match walk::judge(d, access) {
        Ok(_) => Ok(()),
        Err(Fault { why, level }) => print!(rt; " {why} at {level}"),
    }
}

fn told(rt: &impl Print, q: Access, answer: Result<WalkResult, PageFault>) -> io::Result<()> {
    match answer {
        Ok(r) => {
            who(rt, q, q.vaddr)?;
            print!(rt; " ok {} {} {}", Hex(r.paddr), r.page_bits, r.leaf_level)
        }
        Err(f) => fault(rt, q, f),
    }
}

fn replied(rt: &impl Print, q: Access, reply: Result<WalkAnswer, Refusal>) -> io::Result<()> {
    match reply {
        Ok(w) => {
            told(rt, q, w.answer)?;
            print!(rt; " words {}", w.words)
        }
        Err(r) => {
            who(rt, q, q.vaddr)?;
            refused(rt, r)
        }
    }
}

// The word at an address, or a dash.
pub fn word(rt: &impl Print, ram: &[u8], at: u64, wide: bool) -> io::Result<()> {
    let read = if wide {
        memory::load(ram, at, 8, 56)
    } else {
        memory::load(ram, at, 4, 32)
    };
    match read {
        Some(x) => print!(rt; " {}", Hex(x)),
        None => print!(rt; " -"),
    }
}

// One walk: who asks, the answer, the words asked for, the word at `leaf` afterwards, and the reason of a fault.
pub fn walked(
    rt: &impl Print,
    ram: &mut [u8],
    s: PagingScheme,
    root: u64,
    access: Access,
    leaf: u64,
    wide: bool,
) -> io::Result<()>
    ensures { ram.new ≡ walk_ram s root ram.old access }
{
    replied(rt, access, walk::walk(s, root, ram, access))?;
    word(rt, ram, leaf, wide)?;
    verdict(rt, ram, s, root, access)?;
    println!(rt)
}

// From here on a failed write is dropped where it is made.
pub fn say_who(rt: &impl Print, q: Access, vaddr: u64) {
    say!(rt; " {} {} {}", Hex(vaddr), q.kind, q.mode);
}

pub fn say_fault(rt: &impl Print, q: Access, f: PageFault) {
    say_who(rt, q, f.vaddr);
    say!(rt; " fault {}", f.cause);
}

pub fn say_refused(rt: &impl Print, r: Refusal) {
    say!(rt; " refused {}", r.number());
}

pub fn say_said(rt: &impl Print, s: Result<(), Refusal>) {
    match s {
        Ok(()) => say!(rt; " granted"),
        Err(r) => say_refused(rt, r),
    }
}

fn say_verdict(rt: &impl Print, ram: &[u8], s: PagingScheme, root: u64, access: Access) {
    let Ok(d) = walker::find(ram, root, s, access.vaddr) else {
        return;
    };
    if let Err(Fault { why, level }) = walk::judge(d, access) {
        say!(rt; " {why} at {level}");
    }
}

fn say_told(rt: &impl Print, q: Access, answer: Result<WalkResult, PageFault>) {
    match answer {
        Ok(r) => {
            say_who(rt, q, q.vaddr);
            say!(rt; " ok {} {} {}", Hex(r.paddr), r.page_bits, r.leaf_level);
        }
        Err(f) => say_fault(rt, q, f),
    }
}

fn say_replied(rt: &impl Print, q: Access, reply: Result<WalkAnswer, Refusal>) {
    match reply {
        Ok(w) => {
            say_told(rt, q, w.answer);
            say!(rt; " words {}", w.words);
        }
        Err(r) => {
            say_who(rt, q, q.vaddr);
            say_refused(rt, r);
        }
    }
}

pub fn say_word(rt: &impl Print, ram: &[u8], at: u64, wide: bool) {
    let read = if wide {
        memory::load(ram, at, 8, 56)
    } else {
        memory::load(ram, at, 4, 32)
    };
    match read {
        Some(x) => say!(rt; " {}", Hex(x)),
        None => say!(rt; " -"),
    }
}

pub fn say_walked(
    rt: &impl Print,
    ram: &mut [u8],
    s: PagingScheme,
    root: u64,
    access: Access,
    leaf: u64,
    wide: bool,
) {
    say_replied(rt, access, walk::walk(s, root, ram, access));
    say_word(rt, ram, leaf, wide);
    say_verdict(rt, ram, s, root, access);
    say!(rt; "\n");
}
