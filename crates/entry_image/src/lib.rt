// The TLB's entries as bytes, 25 for each, little-endian: put where a cursor stands, and read.
#![tactic(auto)]

ghost use Rattle.std.specs.Prelude.{◌≡◌, cond, ◌+◌, ◌≤◌, length};
ghost use Rattle.writer.specs.Wrote.{HasRoom, Wrote};
ghost use Rattle.entry_image.specs.EntryImage.{entry_flags, entry_image, entries_image, entry_read, entries_read, refs_ok};

use entry::TlbEntry;
use layout::{u16_at, u32_at, u64_at};
use pte::Pte;
use std::array;
use writer::Out;

// A flag's part of a byte.
// Kept beside `u8::from(set)`: sums of `value * u8::from(set)` leave nine goals, that they fit a byte, which the bound here proves.
pub fn flag(set: bool, value: u8) -> u8
    ensures { (result ≡ cond set value 0) × (result ≤ value) }
{
    if set { value } else { 0 }
}

// As V R W X U G A D in a page-table entry.
#[tactic(auto, unfolding(crate::specs::EntryImage::entry_flags))]
fn entry_flags(e: TlbEntry) -> u8
    ensures { result ≡ entry_flags e }
{
    let p = e.perms;
    let low = flag(e.valid, 1) + flag(p.r, 2) + flag(p.w, 4) + flag(p.x, 8);
    low + flag(p.u, 16) + flag(e.global, 32) + flag(e.accessed, 64) + flag(e.dirty, 128)
}

fn put_entry(out: &mut Out<'_>, e: TlbEntry)
    requires { HasRoom 25 out.old }
    ensures { Wrote 25 out.old out.new (entry_image e) }
{
    out.bytes(&e.vpn.to_le_bytes());
    out.bytes(&e.ppn.to_le_bytes());
    out.bytes(&e.age.to_le_bytes());
    out.bytes(&e.asid.to_le_bytes());
    out.bytes(&[e.mask_bits, entry_flags(e), flag(e.ref_bit, 1)]);
}

pub fn put_entries(out: &mut Out<'_>, es: [TlbEntry; 128])
    requires { HasRoom 3200 out.old }
    ensures { Wrote 3200 out.old out.new (entries_image es) }
{
    for e in es {
        put_entry(out, e);
    }
}

fn entry_in(s: &[u8], at: usize) -> TlbEntry
    requires { at + 25 ≤ length s.now }
    ensures { result ≡ entry_read s.now at }
{
    let vpn = u64_at(s, at);
    let ppn = u64_at(s, at + 8);
    let age = u32_at(s, at + 16);
    let asid = u16_at(s, at + 20);
    let mask_bits = s[at + 22];
    let referenced = s[at + 24];
    let flags = Pte::new(u64::from(s[at + 23]));
    let perms = flags.perms();
    TlbEntry {
        vpn,
        ppn,
        age,
        asid,
        perms,
        valid: flags.valid(),
        global: flags.global(),
        accessed: flags.accessed(),
        dirty: flags.dirty(),
        mask_bits,
        ref_bit: referenced & 0x1 != 0,
    }
}

pub fn entries_in(s: &[u8], at: usize) -> [TlbEntry; 128]
    requires { at + 3200 ≤ length s.now }
    ensures { result ≡ entries_read s.now at 128 }
{
    array::from_fn(|i| entry_in(s, at + 25 * i))
}

// Whether each entry's reference byte is 0 or 1.
pub fn refs_ok(s: &[u8], at: usize) -> bool
    requires { at + 3200 ≤ length s.now }
    ensures { result ≡ refs_ok s.now at 128 }
{
    (0..128).all(|i| s[at + 25 * i + 24] <= 1)
}
