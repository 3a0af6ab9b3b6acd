// What a host in C or Rust links: the functions of `ffi` under their own names, a slice as a pointer and a length. Each states the clauses of the
// function that it calls, letter for letter. A crate is a library or a static library, so both stand.
#![tactic(auto)]

ghost use Rattle.std.specs.Prelude.{◌≡◌, cond, length};
ghost use Rattle.scheme.specs.Satp.{satp_in};
ghost use Rattle.scheme.specs.Scheme.{sv32, sv39};
ghost use Rattle.scheme.specs.Map.{delta_of};
ghost use Rattle.scheme.specs.declared.map.MapKind.TheVariants.{Offset};
ghost use Rattle.run.specs.Run.{too_short, output_of, end_ram_of, ran_of, ran_buffer};
ghost use Rattle.imaged.specs.Imaged.{said_number, kept_in, made_number, made_image, schemed_of, configured_of, flushed_of, flushed_at_of};
ghost use Rattle.imaged.specs.Accesses.{translated_number, translated_image, translated_ram, translated_told};
ghost use Rattle.imaged_run.specs.Records.{opened_said, records_text, records_ram, records_image, records_short, records_ran};
ghost use Rattle.by_bytes.specs.Numbers.{installed_said, installed_ram, walk_number, told_after, ram_after, root_number};
ghost use Rattle.ffi.specs.Exports.{ran_number, state_short, state_ran, state_buffer};

// Runs a bundle: the bytes of output that are put at the start of `out`. RAM is left at the start of `ram`.
#[unsafe(no_mangle)]
pub extern "C" fn muntesulca_run(file: &[u8], ram: &mut [u8], out: &mut [u8]) -> usize
    ensures { (result ≡ ran_number (ran_of file.now (length ram.old) (length out.old)))
        × (out.new ≡ ran_buffer (too_short file.now (length ram.old) (length out.old)) out.old (output_of file.now))
        × (ram.new ≡ ran_buffer (too_short file.now (length ram.old) (length out.old)) ram.old (end_ram_of file.now)) }
{
    ffi::muntesulca_run(file, ram, out)
}

// The same, and the image of the state that is left, at the start of `state`.
#[unsafe(no_mangle)]
pub extern "C" fn muntesulca_run_state(
    file: &[u8],
    ram: &mut [u8],
    out: &mut [u8],
    state: &mut [u8],
) -> usize
    ensures { (result ≡ ran_number (state_ran file.now (length ram.old) (length out.old) (length state.old)))
        × (out.new ≡ ran_buffer (state_short file.now (length ram.old) (length out.old) (length state.old)) out.old (output_of file.now))
        × (ram.new ≡ ran_buffer (state_short file.now (length ram.old) (length out.old) (length state.old)) ram.old (end_ram_of file.now))
        × (state.new ≡ state_buffer (state_short file.now (length ram.old) (length out.old) (length state.old)) file.now state.old) }
{
    ffi::muntesulca_run_state(file, ram, out, state)
}

// A list of records on a state's image: the bytes of output that are put at the start of `out`.
#[unsafe(no_mangle)]
pub extern "C" fn muntesulca_records(
    image: &mut [u8],
    records: &[u8],
    ram: &mut [u8],
    out: &mut [u8],
) -> usize
    ensures { (result ≡ ran_number (records_ran image.old records.now ram.old (length out.old)))
        × (out.new ≡ ran_buffer (records_short image.old records.now (length out.old)) out.old (records_text image.old records.now ram.old))
        × (ram.new ≡ cond (records_short image.old records.now (length out.old)) ram.old (records_ram image.old records.now ram.old))
        × (image.new ≡ cond (records_short image.old records.now (length out.old)) image.old (records_image image.old records.now ram.old)) }
{
    ffi::muntesulca_records(image, records, ram, out)
}

// The same for the state and the RAM alone: the refusal's number, or 0.
#[unsafe(no_mangle)]
pub extern "C" fn muntesulca_events(image: &mut [u8], records: &[u8], ram: &mut [u8]) -> u32
    ensures { (result ≡ said_number (opened_said image.old records.now))
        × (image.new ≡ records_image image.old records.now ram.old)
        × (ram.new ≡ records_ram image.old records.now ram.old) }
{
    ffi::muntesulca_events(image, records, ram)
}

// The image of a new state at the start of a buffer.
#[unsafe(no_mangle)]
pub extern "C" fn muntesulca_new(config: &[u8], image: &mut [u8]) -> u32
    ensures { (result ≡ made_number config.now image.old)
        × (image.new ≡ made_image config.now image.old) }
{
    ffi::muntesulca_new(config, image)
}

#[unsafe(no_mangle)]
pub extern "C" fn muntesulca_set_scheme(image: &mut [u8], scheme: &[u8]) -> u32
    ensures { (result ≡ said_number (schemed_of image.old scheme.now).said)
        × (image.new ≡ kept_in (schemed_of image.old scheme.now) image.old) }
{
    ffi::muntesulca_set_scheme(image, scheme)
}

#[unsafe(no_mangle)]
pub extern "C" fn muntesulca_reconfigure(image: &mut [u8], config: &[u8]) -> u32
    ensures { (result ≡ said_number (configured_of image.old config.now).said)
        × (image.new ≡ kept_in (configured_of image.old config.now) image.old) }
{
    ffi::muntesulca_reconfigure(image, config)
}

#[unsafe(no_mangle)]
pub extern "C" fn muntesulca_flush(image: &mut [u8]) -> u32
    ensures { (result ≡ said_number (flushed_of image.old).said)
        × (image.new ≡ kept_in (flushed_of image.old) image.old) }
{
    ffi::muntesulca_flush(image)
}

#[unsafe(no_mangle)]
pub extern "C" fn muntesulca_flush_vaddr(image: &mut [u8], vaddr: u64) -> u32
    ensures { (result ≡ said_number (flushed_at_of image.old vaddr).said)
        × (image.new ≡ kept_in (flushed_at_of image.old vaddr) image.old) }
{
    ffi::muntesulca_flush_vaddr(image, vaddr)
}

// One access on a state's image: `told` gets the cause, the address, the count of words and the stall.
#[unsafe(no_mangle)]
pub extern "C" fn muntesulca_translate(
    image: &mut [u8],
    vaddr: u64,
    kind: u8,
    mode: u8,
    ram: &mut [u8],
    told: &mut [u8],
) -> u32
    ensures { (result ≡ translated_number image.old vaddr kind mode ram.old told.old)
        × (image.new ≡ translated_image image.old vaddr kind mode ram.old told.old)
        × (ram.new ≡ translated_ram image.old vaddr kind mode ram.old told.old)
        × (told.new ≡ translated_told image.old vaddr kind mode ram.old told.old) }
{
    ffi::muntesulca_translate(image, vaddr, kind, mode, ram, told)
}

// Installs a map into RAM: the refusal's number, or 0.
#[unsafe(no_mangle)]
pub extern "C" fn muntesulca_install(scheme: &[u8], map: &[u8], ram: &mut [u8]) -> u32
    ensures { (result ≡ said_number (installed_said scheme.now map.now ram.old))
        × (ram.new ≡ installed_ram scheme.now map.now ram.old) }
{
    ffi::muntesulca_install(scheme, map, ram)
}

// One access by a plain walk from a root frame: `told` gets the cause, the address and the count of words.
#[unsafe(no_mangle)]
pub extern "C" fn muntesulca_walk(
    scheme: &[u8],
    root: u64,
    vaddr: u64,
    kind: u8,
    mode: u8,
    ram: &mut [u8],
    told: &mut [u8],
) -> u32
    ensures { (result ≡ walk_number scheme.now root vaddr kind mode ram.old told.old)
        × (ram.new ≡ ram_after scheme.now root vaddr kind mode ram.old told.old)
        × (told.new ≡ told_after scheme.now root vaddr kind mode ram.old told.old) }
{
    ffi::muntesulca_walk(scheme, root, vaddr, kind, mode, ram, told)
}

// The root of a RAM of some size, or the refusal's number.
#[unsafe(no_mangle)]
pub extern "C" fn muntesulca_root_pa(scheme: &[u8], ram_size: u64) -> u64
    ensures { result ≡ root_number scheme.now ram_size }
{
    ffi::muntesulca_root_pa(scheme, ram_size)
}

#[unsafe(no_mangle)]
pub extern "C" fn muntesulca_make_satp(root: u32, asid: u16) -> u32
    ensures { result ≡ satp_in sv32 root asid }
{
    ffi::muntesulca_make_satp(root, asid)
}

#[unsafe(no_mangle)]
pub extern "C" fn muntesulca_make_satp39(root: u64, asid: u16) -> u64
    ensures { result ≡ satp_in sv39 root asid }
{
    ffi::muntesulca_make_satp39(root, asid)
}

#[unsafe(no_mangle)]
pub extern "C" fn muntesulca_delta_bytes(mib: i32) -> u32
    ensures { result ≡ delta_of (Offset mib) }
{
    ffi::muntesulca_delta_bytes(mib)
}
