// The calls of a host in C or Rust: numbers and byte slices alone. `ffi_c` exports each under its name here, which begins with the project's, since
// a name is the whole program's. Most only hand on to a published function, for that name.
#![tactic(auto)]

ghost use Rattle.std.specs.Prelude.{◌≡◌, cond, length};
ghost use Rattle.scheme.specs.Satp.{satp_in};
ghost use Rattle.scheme.specs.Scheme.{sv32, sv39};
ghost use Rattle.scheme.specs.Map.{delta_of};
ghost use Rattle.scheme.specs.declared.map.MapKind.TheVariants.{Offset};
ghost use Rattle.run.specs.Run.{too_short, output_of, end_ram_of, ran_of, ran_buffer};
ghost use Rattle.imaged.specs.Imaged.{said_number, kept_in, made_number, made_image, schemed_of, configured_of, flushed_of, flushed_at_of};
ghost use Rattle.imaged.specs.Accesses.{translated_number, translated_image, translated_ram, translated_told};
ghost use Rattle.imaged_run.specs.Records.{opened_said, records_text, records_ram, records_image, records_short, records_ran};
ghost use Rattle.by_bytes.specs.Numbers.{installed_said, installed_ram, walk_number, told_after, ram_after, root_number};
ghost use Rattle.ffi.specs.Exports.{ran_number, state_short, state_ran, state_buffer};

use run::TooShort;
use scheme::MapKind;

// A run's answer as C reads it: the bytes of output, or the largest number where a buffer is too short.
#[tactic(auto, unfolding(crate::specs::Exports::ran_number))]
fn ran_number(ran: Result<usize, TooShort>) -> usize
    ensures { result ≡ ran_number ran }
{
    ran.unwrap_or(usize::MAX)
}

// Runs a bundle: the bytes of output that are put at the start of `out`. RAM is left at the start of `ram`.
pub fn muntesulca_run(file: &[u8], ram: &mut [u8], out: &mut [u8]) -> usize
    ensures { (result ≡ ran_number (ran_of file.now (length ram.old) (length out.old)))
        × (out.new ≡ ran_buffer (too_short file.now (length ram.old) (length out.old)) out.old (output_of file.now))
        × (ram.new ≡ ran_buffer (too_short file.now (length ram.old) (length out.old)) ram.old (end_ram_of file.now)) }
{
    ran_number(run::run(file, ram, out))
}

// The same, and the image of the state that is left, at the start of `state`.
#[tactic(auto, unfolding(crate::specs::Exports::ran_number))]
pub fn muntesulca_run_state(file: &[u8], ram: &mut [u8], out: &mut [u8], state: &mut [u8]) -> usize
    ensures { (result ≡ ran_number (state_ran file.now (length ram.old) (length out.old) (length state.old)))
        × (out.new ≡ ran_buffer (state_short file.now (length ram.old) (length out.old) (length state.old)) out.old (output_of file.now))
        × (ram.new ≡ ran_buffer (state_short file.now (length ram.old) (length out.old) (length state.old)) ram.old (end_ram_of file.now))
        × (state.new ≡ state_buffer (state_short file.now (length ram.old) (length out.old) (length state.old)) file.now state.old) }
{
    if state.len() < 3416 {
        return usize::MAX;
    }
    let k = run::run_kept(file, ram, out);
    if k.said.is_ok() {
        image::put_state(k.mmu, state);
    }
    ran_number(k.said)
}

// A list of records on a state's image: the bytes of output that are put at the start of `out`.
pub fn muntesulca_records(image: &mut [u8], records: &[u8], ram: &mut [u8], out: &mut [u8]) -> usize
    ensures { (result ≡ ran_number (records_ran image.old records.now ram.old (length out.old)))
        × (out.new ≡ ran_buffer (records_short image.old records.now (length out.old)) out.old (records_text image.old records.now ram.old))
        × (ram.new ≡ cond (records_short image.old records.now (length out.old)) ram.old (records_ram image.old records.now ram.old))
        × (image.new ≡ cond (records_short image.old records.now (length out.old)) image.old (records_image image.old records.now ram.old)) }
{
    ran_number(imaged_run::run_records(image, records, ram, out))
}

// The same for the state and the RAM alone: the refusal's number, or 0.
pub fn muntesulca_events(image: &mut [u8], records: &[u8], ram: &mut [u8]) -> u32
    ensures { (result ≡ said_number (opened_said image.old records.now))
        × (image.new ≡ records_image image.old records.now ram.old)
        × (ram.new ≡ records_ram image.old records.now ram.old) }
{
    imaged_run::run_events(image, records, ram)
}

// The image of a new state at the start of a buffer.
pub fn muntesulca_new(config: &[u8], image: &mut [u8]) -> u32
    ensures { (result ≡ made_number config.now image.old)
        × (image.new ≡ made_image config.now image.old) }
{
    imaged::new(config, image)
}

pub fn muntesulca_set_scheme(image: &mut [u8], scheme: &[u8]) -> u32
    ensures { (result ≡ said_number (schemed_of image.old scheme.now).said)
        × (image.new ≡ kept_in (schemed_of image.old scheme.now) image.old) }
{
    imaged::set_scheme(image, scheme)
}

pub fn muntesulca_reconfigure(image: &mut [u8], config: &[u8]) -> u32
    ensures { (result ≡ said_number (configured_of image.old config.now).said)
        × (image.new ≡ kept_in (configured_of image.old config.now) image.old) }
{
    imaged::reconfigure(image, config)
}

pub fn muntesulca_flush(image: &mut [u8]) -> u32
    ensures { (result ≡ said_number (flushed_of image.old).said)
        × (image.new ≡ kept_in (flushed_of image.old) image.old) }
{
    imaged::flush(image)
}

pub fn muntesulca_flush_vaddr(image: &mut [u8], vaddr: u64) -> u32
    ensures { (result ≡ said_number (flushed_at_of image.old vaddr).said)
        × (image.new ≡ kept_in (flushed_at_of image.old vaddr) image.old) }
{
    imaged::flush_vaddr(image, vaddr)
}

// One access on a state's image: `told` gets the cause, the address, the count of words and the stall.
pub fn muntesulca_translate(
    image: &mut [u8],
    vaddr: u64,
    kind: u8,
    mode: u8,
    ram: &mut [u8],
    told: &mut [u8],
) -> u32
    ensures { (result ≡ translated_number image.old vaddr kind mode ram.old told.old)
        × (image.new ≡ translated_image image.old vaddr kind mode ram.old told.old)
        × (ram.new ≡ translated_ram image.old vaddr kind mode ram.old told.old)
        × (told.new ≡ translated_told image.old vaddr kind mode ram.old told.old) }
{
    imaged::translate(image, vaddr, kind, mode, ram, told)
}

// Installs a map into RAM: the refusal's number, or 0.
pub fn muntesulca_install(scheme: &[u8], map: &[u8], ram: &mut [u8]) -> u32
    ensures { (result ≡ said_number (installed_said scheme.now map.now ram.old))
        × (ram.new ≡ installed_ram scheme.now map.now ram.old) }
{
    by_bytes::install(scheme, map, ram)
}

// One access by a plain walk from a root frame: `told` gets the cause, the address and the count of words.
pub fn muntesulca_walk(
    scheme: &[u8],
    root: u64,
    vaddr: u64,
    kind: u8,
    mode: u8,
    ram: &mut [u8],
    told: &mut [u8],
) -> u32
    ensures { (result ≡ walk_number scheme.now root vaddr kind mode ram.old told.old)
        × (ram.new ≡ ram_after scheme.now root vaddr kind mode ram.old told.old)
        × (told.new ≡ told_after scheme.now root vaddr kind mode ram.old told.old) }
{
    by_bytes::walk(scheme, root, vaddr, kind, mode, ram, told)
}

// The root of a RAM of some size, or the refusal's number.
pub fn muntesulca_root_pa(scheme: &[u8], ram_size: u64) -> u64
    ensures { result ≡ root_number scheme.now ram_size }
{
    by_bytes::root_pa(scheme, ram_size)
}

pub fn muntesulca_make_satp(root: u32, asid: u16) -> u32
    ensures { result ≡ satp_in sv32 root asid }
{
    scheme::make_satp(root, asid)
}

pub fn muntesulca_make_satp39(root: u64, asid: u16) -> u64
    ensures { result ≡ satp_in sv39 root asid }
{
    scheme::make_satp39(root, asid)
}

pub fn muntesulca_delta_bytes(mib: i32) -> u32
    ensures { result ≡ delta_of (Offset mib) }
{
    MapKind::Offset(mib).delta_bytes()
}
