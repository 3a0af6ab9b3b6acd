// The plan of a map: its entries' ranges and words, and the room of its child tables. It touches no RAM. What asks for a valid scheme is
// for the installer, which tests that first. `level` and `parent` change from call to call, and each public function takes them apart from the
// plan: a struct of the three would be made and taken apart at each call.
#![tactic(auto)]

ghost use Rattle.std.specs.Prelude.{◌≡◌, ◌≤◌, ◌<◌, ◌+◌, ◌^◌};
ghost use Rattle.plan.specs.Map.{flags_of, plan_of, shift, table_bytes, slot_bytes, pointer_word};
ghost use Rattle.plan.specs.Levels.{width_at, below, base_at, opens_at, leaf_at, room_at, entry_room_at};
ghost use Rattle.plan.specs.Levels.{Fit, Good, At, Entry, Placed};

use pte::PtePerms;
use scheme::{MapKind, PagingScheme};

// What the base of an entry takes over from its parent: nothing, or the parent's base.
#[derive(Clone, Copy)]
pub enum MapRule {
    Relative,
    Absolute,
}

#[derive(Clone, Copy)]
pub struct PageMapSpec {
    pub kind: MapKind,
    pub perms: PtePerms,
    pub global: bool,
    pub rule: MapRule,
}

// The virtual addresses that get the smallest pages, `end` not among them.
#[derive(Clone, Copy)]
pub struct Window {
    pub start: u32,
    pub end: u32,
}

// A map with its delta and its leaves' flags worked out.
#[derive(Clone, Copy)]
pub struct Plan {
    pub scheme: PagingScheme,
    pub window: Window,
    pub delta: u32,
    pub flags: u32,
    pub rule: MapRule,
}

// A child table's address, and its own part of the stretch of RAM that it lies in.
#[derive(Clone, Copy)]
pub struct Place {
    pub pa: usize,
    pub start: usize,
    pub stop: usize,
}

// A leaf's flags: V, and those of the map.
#[tactic(auto, unfolding(crate::specs::Map::flags_of))]
fn leaf_flags(perms: PtePerms, global: bool) -> u32
    ensures { result ≡ flags_of perms global }
{
    let rights = 2 * u32::from(perms.r) + 4 * u32::from(perms.w) + 8 * u32::from(perms.x);
    1 + rights + 16 * u32::from(perms.u) + 32 * u32::from(global)
}

#[tactic(auto, unfolding(crate::specs::Map::plan_of))]
pub fn plan_of(scheme: PagingScheme, spec: PageMapSpec, window: Window) -> Plan
    ensures { result ≡ plan_of scheme spec window }
{
    Plan {
        scheme,
        window,
        delta: spec.kind.delta_bytes(),
        flags: leaf_flags(spec.perms, spec.global),
        rule: spec.rule,
    }
}

// The bytes that one entry of a level covers.
fn span_at(p: Plan, level: u8) -> usize
    requires { Good p × (level < p.scheme.levels) }
    ensures { (result ≡ 2 ^ shift p (below p level)) × (0 < result) × (result ≤ 2 ^ 32) }
{
    let s = p.scheme;
    let bits = s.shift_below(level);
    1usize << bits
}

// The number of entries of a level's table.
pub fn entries_at(s: PagingScheme, level: u8) -> usize
    requires { Fit s × (level < s.levels) }
    ensures { (result ≡ 2 ^ width_at s level) × (result ≤ 4096) }
{
    let i = level as usize;
    let w = s.level_bits[i];
    1usize << w
}

pub fn table_bytes(s: PagingScheme, level: u8) -> usize
    requires { Fit s × (level < s.levels) }
    ensures { (result ≡ table_bytes (width_at s level)) × (result ≤ 16384) }
{
    4 * entries_at(s, level)
}

// A child table is rounded up to 4096.
fn slot_bytes(s: PagingScheme, level: u8) -> usize
    requires { Fit s × (level < s.levels) }
    ensures { (result ≡ slot_bytes (width_at s level)) × (result ≤ 16384) }
{
    table_bytes(s, level).next_multiple_of(4096)
}

// Where an entry's range begins, by the plan's rule.
pub fn entry_base(p: Plan, level: u8, parent: usize, idx: usize) -> usize
    requires { Entry p level parent idx }
    ensures { (result ≡ base_at p level parent idx) × (result < 2 ^ 32) }
{
    let own = idx * span_at(p, level);
    match p.rule {
        MapRule::Relative => own,
        MapRule::Absolute => parent + own,
    }
}

// Whether an entry opens a child table.
pub fn opens_child(p: Plan, level: u8, base: usize) -> bool
    requires { Good p × (level < p.scheme.levels) × (base < 2 ^ 32) }
    ensures { result ≡ opens_at p level base }
{
    let s = p.scheme;
    let w = p.window;
    let start = w.start as usize;
    let end = w.end as usize;
    let top = base + span_at(p, level);
    let more = level + 1 < s.levels;
    // One test with no branch.
    more & ((start < end) & ((start < top) & (base < end)))
}

// A leaf's word: the base plus delta, cut down to the page size, with the flags.
pub fn leaf_word(p: Plan, level: u8, base: usize) -> u32
    requires { Good p × (level < p.scheme.levels) × (base < 2 ^ 32) }
    ensures { result ≡ leaf_at p level base }
{
    let span = span_at(p, level);
    let moved = (base + p.delta as usize) % 0x1_0000_0000;
    let frame = moved / span * span;
    let ppn = (frame / 4096) as u32;
    ppn * 1024 + p.flags
}

// A pointer's word: the child table's frame, and V.
pub fn pointer_word(child: usize) -> u32
    requires { child < 2 ^ 32 }
    ensures { result ≡ pointer_word child }
{
    let ppn = (child / 4096) as u32;
    ppn * 1024 + 1
}

// The room of an entry's child table and of all below it: 0 where it opens none.
#[cycle(entry_room_room_below)]
fn entry_room(p: Plan, level: u8, parent: usize, idx: usize) -> usize
    requires { Entry p level parent idx }
    ensures { result ≡ entry_room_at p level parent idx }
{
    let s = p.scheme;
    let base = entry_base(p, level, parent, idx);
    if opens_child(p, level, base) {
        let below = level + 1;
        slot_bytes(s, below) + room_below(p, below, base)
    } else {
        0
    }
}

// The room of a table's children, and of theirs.
#[cycle(entry_room_room_below)]
pub fn room_below(p: Plan, level: u8, parent: usize) -> usize
    requires { At p level parent }
    ensures { result ≡ room_at p level parent }
{
    let s = p.scheme;
    let n = entries_at(s, level);
    let mut sum = 0;
    for idx in 0..n {
        sum += entry_room(p, level, parent, idx);
    }
    sum
}

// Takes a child table of a level downward from next_free, in a stretch of RAM that begins at the address low.
pub fn alloc_table(p: Plan, level: u8, parent: usize, low: usize, next_free: usize) -> Place
    requires { At p level parent × (low + (slot_bytes (width_at p.scheme level) + room_at p level parent) ≤ next_free) × (next_free ≤ 2 ^ 32) }
    ensures { Placed p level parent low next_free result }
{
    let s = p.scheme;
    let pa = next_free - slot_bytes(s, level);
    let room = room_below(p, level, parent);
    let start = pa - low - room;
    let stop = pa - low + table_bytes(s, level);
    Place { pa, start, stop }
}
