// The descent of a page-table walk over a scheme of one to four levels. It only reads, and asks nothing about who asks.
#![tactic(auto)]

ghost use Rattle.std.specs.Prelude.{◌≡◌, true, ◌-◌, ◌%◌, ◌^◌, ◌<◌, ◌≤◌, eqb, Some};
ghost use Rattle.scheme.specs.Scheme.{valid_of, widths_of, total_bits, Modest};
ghost use Rattle.pte.specs.Entry.{reserved};
ghost use Rattle.walker.specs.Descent.{frame, entry_at, leaf_is, entry_is, met_at, seek, top_ok, descent_of};
ghost use Rattle.walker.specs.Found.{found_of};
ghost use Rattle.walker.specs.Reason.{reason_name};

use pte::{Pte, PtePerms};
use scheme::{Format, PagingScheme, Refusal};
use std::fmt;

// Why a walk faults: a descent stops for one of the first five, or of the last two.
#[derive(Clone, Copy)]
pub enum Reason {
    Unreadable,
    Invalid,
    WriteOnly,
    Misaligned,
    OutOfLevels,
    NoRight,
    Privilege,
    WrongTop,
    HighBits,
}

impl fmt::Display for Reason {
    ghost output = { λ why. Some (reason_name why) };

    fn fmt<W: fmt::Write>(&self, f: &mut fmt::Formatter<W>) -> fmt::Result {
        f.write_str(match self {
            Reason::Unreadable => "not readable",
            Reason::Invalid => "not valid",
            Reason::WriteOnly => "W without R",
            Reason::Misaligned => "misaligned",
            Reason::OutOfLevels => "out of levels",
            Reason::NoRight => "no right",
            Reason::Privilege => "privilege",
            Reason::WrongTop => "wrong top",
            Reason::HighBits => "high bits",
        })
    }
}

// A leaf's word and its address.
#[derive(Clone, Copy)]
pub struct LeafWord {
    pub raw: u64,
    pub at: u64,
}

// What an entry of use is: the next table's frame, or a leaf.
#[derive(Clone, Copy)]
pub enum Met {
    Table(u64),
    Leaf(LeafWord),
}

// Where a descent ends: at an aligned leaf, or nowhere. With the shift and the level where that stands: all addresses alike from the shift
// up end there.
#[derive(Clone, Copy)]
pub struct Descent {
    pub end: Result<LeafWord, Reason>,
    pub shift: u32,
    pub level: u8,
}

// W without R.
fn is_reserved(p: PtePerms) -> bool
    ensures { result ≡ reserved p }
{
    p.w && !p.r
}

// Whether the frame is a multiple of the page: the PPN's bits below (shift - 12) are zero. 12 ≤ shift: an offset has 12 bits at least; four
// private functions pass it on.
fn is_aligned(ppn: u64, shift: u32) -> bool
    requires { 12 ≤ shift }
    ensures { result ≡ eqb (ppn % 2 ^ (shift - 12)) 0 }
{
    bits::low_bits(ppn, shift - 12) == 0
}

// The address of a frame.
pub fn frame_of(f: Format, ppn: u64) -> u64
    requires { Modest f }
    ensures { (result ≡ frame f ppn) × (result < 2 ^ f.space) }
{
    bits::low_bits(ppn << 12, f.space as u32)
}

// The address of the entry for `vaddr` in the table whose frame is `table`.
fn entry_at(f: Format, vaddr: u64, table: u64, shift: u32, width: u32) -> u64
    requires { Modest f × (shift < 64) × (width ≤ 12) }
    ensures { result ≡ entry_at f vaddr table shift width }
{
    let start = frame_of(f, table);
    let index = bits::low_bits(vaddr >> shift, width);
    let size = f.bytes as u64;
    let end = start + size * index;
    bits::low_bits(end, f.space as u32)
}

// What the leaf at `at` is.
fn leaf_is(pte: Pte, at: u64, shift: u32) -> Result<Met, Reason>
    requires { 12 ≤ shift }
    ensures { result ≡ leaf_is shift at pte.raw }
{
    if !is_aligned(pte.ppn(), shift) {
        return Err(Reason::Misaligned);
    }
    Ok(Met::Leaf(LeafWord { raw: pte.raw, at }))
}

// What the entry at `at` is.
fn entry_is(pte: Pte, at: u64, shift: u32) -> Result<Met, Reason>
    requires { 12 ≤ shift }
    ensures { result ≡ entry_is shift at pte.raw }
{
    if !pte.valid() {
        return Err(Reason::Invalid);
    }
    if is_reserved(pte.perms()) {
        return Err(Reason::WriteOnly);
    }
    if pte.high() {
        return Err(Reason::HighBits);
    }
    if pte.is_leaf() {
        return leaf_is(pte, at, shift);
    }
    Ok(Met::Table(pte.ppn()))
}

// What stands at `at`.
fn met_at(f: Format, ram: &[u8], at: u64, shift: u32) -> Result<Met, Reason>
    requires { Modest f × (12 ≤ shift) }
    ensures { result ≡ met_at f ram.now shift at }
{
    let Some(raw) = memory::load(ram, at, f.bytes, f.space) else {
        return Err(Reason::Unreadable);
    };
    entry_is(Pte::new(raw), at, shift)
}

// Goes down the tables from the one in the frame `root`, to the first leaf or stop.
fn go_down(f: Format, ram: &[u8], root: u64, scheme: PagingScheme, bits: u32, vaddr: u64) -> Descent
    requires { (valid_of scheme ≡ true) × Modest f × (bits ≡ total_bits scheme) }
    ensures { result ≡ seek f ram.now vaddr scheme.offset_bits (widths_of scheme) 0 root }
{
    let n = scheme.levels;
    let mut shift = bits;
    let mut table = root;
    for level in 0..n {
        let width = scheme.level_bits[level as usize] as u32;
        shift -= width;
        let met = met_at(f, ram, entry_at(f, vaddr, table, shift, width), shift);
        let end = match met {
            Err(why) => Err(why),
            Ok(Met::Leaf(leaf)) => Ok(leaf),
            Ok(Met::Table(next)) => {
                table = next;
                continue;
            }
        };
        return Descent { end, shift, level };
    }
    let last = n - 1;
    Descent {
        end: Err(Reason::OutOfLevels),
        shift,
        level: last,
    }
}

// Whether the bits above the scheme's are all clear, or as Sv39 has them all set.
#[tactic(auto, unfolding(crate::specs::Descent::top_ok))]
pub fn top_ok(f: Format, vaddr: u64) -> bool
    ensures { result ≡ top_ok f vaddr }
{
    let top = bits::shr64(vaddr, f.top);
    top == 0 || top == f.ones
}

// The descent for `vaddr` from the table in the frame `root`. For callers that know the scheme to be valid.
pub fn descend(ram: &[u8], root: u64, scheme: PagingScheme, vaddr: u64) -> Descent
    requires { valid_of scheme ≡ true }
    ensures { result ≡ descent_of ram.now root scheme vaddr }
{
    let f = scheme.format();
    if !top_ok(f, vaddr) {
        return Descent {
            end: Err(Reason::WrongTop),
            shift: scheme.shift_below(0),
            level: 0,
        };
    }
    go_down(f, ram, root, scheme, scheme.total_bits(), vaddr)
}

// The descent for `vaddr`, on any scheme: refusal 1 where it is not valid.
pub fn find(ram: &[u8], root: u64, scheme: PagingScheme, vaddr: u64) -> Result<Descent, Refusal>
    ensures { result ≡ found_of ram.now root scheme vaddr }
{
    if scheme.is_valid() {
        return Ok(descend(ram, root, scheme, vaddr));
    }
    Err(Refusal::BadScheme)
}
