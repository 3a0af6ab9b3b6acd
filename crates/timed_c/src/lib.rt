// What only the benchmark links: the functions of `timed` under their own names. Each states the clauses of the function that it calls, letter for
// letter. A crate is a library or a static library, so both stand.
#![tactic(auto)]

ghost use Rattle.std.specs.Prelude.{◌≡◌};
ghost use Rattle.imaged.specs.Imaged.{said_number};
ghost use Rattle.imaged_run.specs.Records.{opened_said, records_ram, records_image};

// `muntesulca_events` of the crate `ffi`, through the host's call.
#[unsafe(no_mangle)]
pub extern "C" fn muntesulca_events_lent(image: &mut [u8], records: &[u8], ram: &mut [u8]) -> u32
    ensures { (result ≡ said_number (opened_said image.old records.now))
        × (image.new ≡ records_image image.old records.now ram.old)
        × (ram.new ≡ records_ram image.old records.now ram.old) }
{
    timed::muntesulca_events_lent(image, records, ram)
}

// The same by value. Both are in one archive, where `mmu::translate` is one function that both call: what is inlined is the same.
#[unsafe(no_mangle)]
pub extern "C" fn muntesulca_events_value(image: &mut [u8], records: &[u8], ram: &mut [u8]) -> u32
    ensures { (result ≡ said_number (opened_said image.old records.now))
        × (image.new ≡ records_image image.old records.now ram.old)
        × (ram.new ≡ records_ram image.old records.now ram.old) }
{
    timed::muntesulca_events_value(image, records, ram)
}
