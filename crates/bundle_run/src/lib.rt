// A run of what was read: the MMU is set up, the bundle's RAM copied, its map installed, its records run and their lines put.
#![tactic(auto)]

ghost use Rattle.std.specs.Prelude.{◌≡◌, ◌+◌, ◌*◌, ◌≤◌, length};
ghost use Rattle.std.proofs.lemmas.List.Edits.{sets};
ghost use Rattle.writer.specs.Wrote.{HasRoom, Wrote};
ghost use Rattle.steps.specs.Steps.{events_from};
ghost use Rattle.bundle_run.specs.Parts.{bundle_said, bundle_start, given_ram, map_said, map_ram, map_text, map_end, map_mmu, parts_text, parts_end, parts_mmu, room_of, Within};

use bundle::{MapBody, Parts};
use entry::TlbConfig;
use mmu::Kept;
use scheme::{PagingScheme, Refusal};
use session::Settings;
use state::Mmu;
use writer::Out;

// The state that a bundle's settings give, or why they are refused: of the valid schemes a bundle has document 01's.
#[tactic(auto, unfolding(crate::specs::Parts::bundle_said, crate::specs::Parts::bundle_start))]
pub fn set_up(config: TlbConfig, t: Settings) -> Kept
    ensures { (result.said ≡ bundle_said config t) × (result.mmu ≡ bundle_start config t) }
{
    if t.scheme.is_bought() {
        session::set_up(config, t)
    } else {
        session::refused(Refusal::BadScheme)
    }
}

// Installs the map, if there is one.
fn install(map: Option<MapBody>, s: PagingScheme, ram: &mut [u8]) -> Result<(), Refusal>
    ensures { (result ≡ map_said s map ram.old) × (ram.new ≡ map_ram s map ram.old) }
{
    match map {
        None => Ok(()),
        Some(b) => installer::install_map_scheme(ram, b.root, s, b.spec, b.window),
    }
}

// The map, and the records unless it is refused. `ram` is the bundle's RAM and no more.
// Two private steps and one public one pass the same parts on; a type for them would be made at each call.
fn run_mapped(file: &[u8], p: Parts, m: Mmu, ram: &mut [u8], out: &mut Out<'_>) -> Mmu
    requires { Within file.now p × HasRoom (25 * p.count + 113) out.old }
    ensures { (result ≡ map_mmu p.settings.scheme p.map (events_from file.now p.first p.count) m ram.old)
        × (ram.new ≡ map_end p.settings.scheme p.map (events_from file.now p.first p.count) m ram.old)
        × Wrote (25 * p.count + 113) out.old out.new (map_text p.settings.scheme p.map (events_from file.now p.first p.count) m ram.old) }
{
    match install(p.map, p.settings.scheme, ram) {
        Err(why) => {
            text::put_refused(out, why);
            m
        }
        Ok(()) => steps::run_all(file, p.first, p.count, m, ram, out),
    }
}

// One slice over another of its length.
// Kept a loop: `copy_from_slice` calls C's memmove, which the static library would then need from a host beside memcpy and memset.
fn copy(from: &[u8], to: &mut [u8])
    requires { length from.now ≡ length to.old }
    ensures { to.new ≡ from.now }
{
    for i in 0..from.len() {
        to[i] = from[i];
    }
}

// Copies the bundle's RAM to the start of the buffer, and runs on that part of it.
fn run_from(file: &[u8], p: Parts, m: Mmu, ram: &mut [u8], out: &mut Out<'_>) -> Mmu
    requires { Within file.now p × HasRoom (25 * p.count + 113) out.old × (p.ram_len ≤ length ram.old) }
    ensures { (result ≡ map_mmu p.settings.scheme p.map (events_from file.now p.first p.count) m (given_ram file.now p))
        × (ram.new ≡ sets ram.old 0 (map_end p.settings.scheme p.map (events_from file.now p.first p.count) m (given_ram file.now p)))
        × Wrote (25 * p.count + 113) out.old out.new (map_text p.settings.scheme p.map (events_from file.now p.first p.count) m (given_ram file.now p)) }
{
    let stop = p.ram_start + p.ram_len;
    let given = &mut ram[..p.ram_len];
    copy(&file[p.ram_start..stop], given);
    run_mapped(file, p, m, given, out)
}

// The run of what was read, unless it is refused before there is RAM.
pub fn run_parts(
    file: &[u8],
    early: Result<(), Refusal>,
    p: Parts,
    m: Mmu,
    ram: &mut [u8],
    out: &mut Out<'_>,
) -> Mmu
    requires { Within file.now p × HasRoom (room_of early p.count) out.old × (p.ram_len ≤ length ram.old) }
    ensures { (result ≡ parts_mmu file.now early p m)
        × (ram.new ≡ sets ram.old 0 (parts_end file.now early p m))
        × Wrote (room_of early p.count) out.old out.new (parts_text file.now early p m) }
{
    match early {
        Err(why) => {
            text::put_refused(out, why);
            m
        }
        Ok(()) => run_from(file, p, m, ram, out),
    }
}
