// What a host asks for with bytes and numbers alone and no state: a map, a walk, a root. Answers are numbers, since the C interface needs them.
#![tactic(auto)]

ghost use Rattle.std.specs.Prelude.{◌≡◌, ◌≤◌, length};
ghost use Rattle.walk.specs.Answer.{walk_reply, walk_ram};
ghost use Rattle.writer.specs.Wrote.{HasRoom, Wrote};
ghost use Rattle.imaged.specs.Imaged.{said_number};
ghost use Rattle.by_bytes.specs.Numbers.{map_given, installed_said, installed_ram, walk_given, walk_told, reply_number, reply_told, walk_number, told_after, ram_after, root_number};

use scheme::{PagingScheme, Refusal};
use walk::{Access, WalkAnswer};
use writer::Out;

#[tactic(auto, unfolding(crate::specs::Numbers::map_given))]
fn map_given(scheme: &[u8], map: &[u8]) -> bool
    ensures { result ≡ map_given scheme.now map.now }
{
    scheme.len() == 6 && map.len() == 20 && layout::map_ok(map, 0)
}

// Installs a map into RAM: the refusal's number, or 0.
#[tactic(auto, unfolding(crate::specs::Numbers::map_given, imaged::specs::Imaged::laid_out))]
pub fn install(scheme: &[u8], map: &[u8], ram: &mut [u8]) -> u32
    ensures { (result ≡ said_number (installed_said scheme.now map.now ram.old))
        × (ram.new ≡ installed_ram scheme.now map.now ram.old) }
{
    if !map_given(scheme, map) {
        return Refusal::BadLayout.number();
    }
    let s = bundle::scheme_at(scheme, 0);
    let b = bundle::body_at(map, 0);
    imaged::said_number(installer::install_map_scheme(ram, b.root, s, b.spec, b.window))
}

#[tactic(auto, unfolding(crate::specs::Numbers::walk_given))]
fn walk_given(scheme: &[u8], kind: u8, mode: u8) -> bool
    ensures { result ≡ walk_given scheme.now kind mode }
{
    scheme.len() == 6 && imaged::access_given(kind, mode)
}

// What a walk tells: its cause and address, and the count of words.
#[tactic(auto, unfolding(crate::specs::Numbers::walk_told))]
fn put_walk(told: &mut Out<'_>, a: WalkAnswer)
    requires { HasRoom 16 told.old }
    ensures { Wrote 16 told.old told.new (walk_told a) }
{
    match a.answer {
        Ok(r) => imaged::put_told(told, 0, r.paddr, a.words),
        Err(f) => imaged::put_told(told, f.cause, 0, a.words),
    }
}

fn walk_one(s: PagingScheme, root: u64, q: Access, ram: &mut [u8], told: &mut [u8]) -> u32
    requires { 16 ≤ length told.old }
    ensures { (result ≡ reply_number (walk_reply s root ram.old q))
        × (ram.new ≡ walk_ram s root ram.old q)
        × (told.new ≡ reply_told (walk_reply s root ram.old q) told.old) }
{
    match walk::walk(s, root, ram, q) {
        Ok(a) => {
            put_walk(&mut Out::new(told), a);
            0
        }
        Err(why) => why.number(),
    }
}

// One access by a plain walk from a root frame: `told` gets the cause, the address and the count of words.
#[tactic(auto, unfolding(crate::specs::Numbers::walk_given, crate::specs::Numbers::walk_number, crate::specs::Numbers::told_after, crate::specs::Numbers::ram_after))]
pub fn walk(
    scheme: &[u8],
    root: u64,
    vaddr: u64,
    kind: u8,
    mode: u8,
    ram: &mut [u8],
    told: &mut [u8],
) -> u32
    ensures { (result ≡ walk_number scheme.now root vaddr kind mode ram.old told.old)
        × (ram.new ≡ ram_after scheme.now root vaddr kind mode ram.old told.old)
        × (told.new ≡ told_after scheme.now root vaddr kind mode ram.old told.old) }
{
    if told.len() < 16 {
        return 255;
    }
    if !walk_given(scheme, kind, mode) {
        return Refusal::BadLayout.number();
    }
    let s = bundle::scheme_at(scheme, 0);
    walk_one(s, root, imaged::access_by(vaddr, kind, mode), ram, told)
}

// The root of a RAM of some size, or the refusal's number.
#[tactic(auto, unfolding(crate::specs::Numbers::asked_number))]
pub fn root_pa(scheme: &[u8], ram_size: u64) -> u64
    ensures { result ≡ root_number scheme.now ram_size }
{
    if scheme.len() != 6 {
        return u64::from(Refusal::BadLayout.number());
    }
    let s = bundle::scheme_at(scheme, 0);
    match s.root_pa(ram_size) {
        Ok(n) => n,
        Err(why) => u64::from(why.number()),
    }
}
