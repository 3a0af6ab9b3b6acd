// Words in the first bytes of RAM, as if there were no more.
use show::{Hex, YesNo, say};

pub fn load(rt: &impl Print, ram: &[u8], a: u32, size: u64) {
    let Some(ram) = ram.get(..size as usize) else {
        return;
    };
    say!(rt; "load {}", Hex(u64::from(a)));
    match memory::load32(ram, a) {
        Some(w) => say!(rt; " {}\n", Hex(w)),
        None => say!(rt; " unreadable\n"),
    }
}

pub fn store(rt: &impl Print, ram: &mut [u8], a: u32, v: u32, size: u64) {
    let Some(ram) = ram.get_mut(..size as usize) else {
        return;
    };
    let done = memory::store32(ram, a, v);
    say!(rt; "store {} {}\n", Hex(u64::from(a)), YesNo(done));
}
