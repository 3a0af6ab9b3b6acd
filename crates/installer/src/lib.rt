// The map installer: a table's entries in order, an entry's child table in its own stretch of RAM.
#![tactic(auto)]

ghost use Rattle.std.specs.Prelude.{◌≡◌, ◌≤◌, ◌<◌, ◌+◌, ◌-◌, ◌*◌, ◌^◌, length};
ghost use Rattle.memory.specs.Word.{put_at};
ghost use Rattle.plan.specs.Map.{table_bytes};
ghost use Rattle.plan.specs.Writes.{all_writes, written};
ghost use Rattle.plan.specs.Levels.{width_at, entries, room_at, entry_room_at, table_at, entry_at, Fit};
ghost use Rattle.installer.specs.Install.{barred, refusal_of, install_said, install_ram};
ghost use Rattle.installer.specs.Stretch.{table_pa, Room, Stretch, Layable};

use plan::{PageMapSpec, Plan, Window};
use pte::PtePerms;
use scheme::{PagingScheme, Refusal};

// Writes a word that lies in the stretch.
fn put_word(ram: &mut [u8], at: u32, word: u32)
    requires { (at + 4 ≤ length ram.old) × (length ram.old ≤ 2 ^ 32) }
    ensures { ram.new ≡ put_at 4 ram.old at word }
{
    memory::store32(ram, at, word);
}

// Where in a stretch of len bytes, which ends with its table, an entry's word is.
fn entry_at(len: usize, s: PagingScheme, level: u8, idx: usize) -> u32
    requires { Fit s × (level < s.levels) × (idx < 2 ^ width_at s level) × (table_bytes (width_at s level) ≤ len) × (len ≤ 2 ^ 32) }
    ensures { (result + table_bytes (width_at s level) ≡ len + 4 * idx) × (result + 4 ≤ len) }
{
    let at = len - plan::table_bytes(s, level) + 4 * idx;
    at as u32
}

// Fills the table that ends the stretch lent, which begins at the address low; child tables are taken downward from the table on.
// Returns what is then free.
#[cycle(fill_entry_fill_table)]
fn fill_table(ram: &mut [u8], low: usize, p: Plan, level: u8, parent: usize) -> usize
    requires { Room p level parent low (length ram.old) }
    ensures { (ram.new ≡ written low (table_at p level parent (table_pa p level low (length ram.old))) ram.old)
        × (result ≡ table_pa p level low (length ram.old) - room_at p level parent) }
{
    let s = p.scheme;
    let n = plan::entries_at(s, level);
    let mut next_free = low + ram.len() - plan::table_bytes(s, level);
    for idx in 0..n {
        next_free = fill_entry(ram, low, p, level, parent, idx, next_free);
    }
    next_free
}

// Writes one entry: a leaf, or a pointer to a child table that is filled in its own stretch of RAM.
#[cycle(fill_entry_fill_table)]
fn fill_entry(
    ram: &mut [u8],
    low: usize,
    p: Plan,
    level: u8,
    parent: usize,
    idx: usize,
    next_free: usize,
) -> usize
    requires { Stretch p level parent idx low next_free (length ram.old) × (idx < entries p level) }
    ensures { (ram.new ≡ written low (entry_at p level parent (table_pa p level low (length ram.old)) idx next_free) ram.old)
        × (result ≡ next_free - entry_room_at p level parent idx) }
{
    let s = p.scheme;
    let at = entry_at(ram.len(), s, level, idx);
    let base = plan::entry_base(p, level, parent, idx);
    if plan::opens_child(p, level, base) {
        let below = level + 1;
        let c = plan::alloc_table(p, below, base, low, next_free);
        put_word(ram, at, plan::pointer_word(c.pa));
        fill_table(&mut ram[c.start..c.stop], low + c.start, p, below, base)
    } else {
        put_word(ram, at, plan::leaf_word(p, level, base));
        next_free
    }
}

// Whether the map has none of R, W, X, or W without R.
#[tactic(auto, unfolding(crate::specs::Install::barred))]
fn is_barred(p: PtePerms) -> bool
    ensures { result ≡ barred p }
{
    !(p.r || p.w || p.x) || p.w && !p.r
}

// The first refusal that holds, in document 01's order. `len` is the RAM's length.
#[tactic(auto, unfolding(crate::specs::Install::refusal_of, crate::specs::Install::refuse_if))]
fn first_refusal(
    len: usize,
    root_pa: u32,
    scheme: PagingScheme,
    spec: PageMapSpec,
    window: Window,
) -> Result<(), Refusal>
    ensures { result ≡ refusal_of scheme spec window root_pa len }
{
    if !scheme.is_bought() {
        return Err(Refusal::BadScheme);
    }
    if root_pa % 4096 != 0 {
        return Err(Refusal::RootUnaligned);
    }
    let root = root_pa as usize;
    let stop = root + plan::table_bytes(scheme, 0);
    if len < stop || 0x1_0000_0000 < stop {
        return Err(Refusal::TopTableOutside);
    }
    let perms = spec.perms;
    if is_barred(perms) {
        return Err(Refusal::BadFlags);
    }
    let p = plan::plan_of(scheme, spec, window);
    if root < plan::room_below(p, 0, 0) {
        return Err(Refusal::NoRoom);
    }
    Ok(())
}

// Fills the tables of a map that is not refused. All of them lie in the part of RAM that ends with the top table.
fn lay_map(ram: &mut [u8], root_pa: u32, p: Plan)
    requires { Layable p root_pa (length ram.old) }
    ensures { ram.new ≡ written 0 (all_writes p root_pa) ram.old }
{
    let s = p.scheme;
    let stop = root_pa as usize + plan::table_bytes(s, 0);
    fill_table(&mut ram[0..stop], 0, p, 0, 0);
}

// Installs the map, or refuses and leaves RAM as it was.
pub fn install_map_scheme(
    ram: &mut [u8],
    root_pa: u32,
    scheme: PagingScheme,
    spec: PageMapSpec,
    window: Window,
) -> Result<(), Refusal>
    ensures { (result ≡ install_said scheme spec window root_pa ram.old)
        × (ram.new ≡ install_ram scheme spec window root_pa ram.old) }
{
    first_refusal(ram.len(), root_pa, scheme, spec, window)?;
    lay_map(ram, root_pa, plan::plan_of(scheme, spec, window));
    Ok(())
}
