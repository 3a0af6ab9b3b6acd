// What only the benchmark calls, by `timed_c`: a list of accesses and flushes on a state's image, with each access through the host's call, and
// the same by value. It is no part of the published library. The state goes by value from one record to the next, and is lent by a local at each
// access.
#![tactic(auto)]

ghost use Rattle.std.specs.Prelude.{◌≡◌};
ghost use Rattle.imaged.specs.Imaged.{said_number};
ghost use Rattle.imaged_run.specs.Records.{opened_said, records_ram, records_image};

use access::Served;
use fold::Server;
use state::Mmu;
use walk::Access;

// Each access goes through the host's call, on a state that a local keeps and lends.
struct Lent;

impl Server for Lent {
    fn translate(m: Mmu, q: Access, ram: &mut [u8]) -> Served {
        lending::translate_kept(m, q, ram)
    }
}

// `muntesulca_events` of the crate `ffi`, through the host's call.
pub fn muntesulca_events_lent(image: &mut [u8], records: &[u8], ram: &mut [u8]) -> u32
    ensures { (result ≡ said_number (opened_said image.old records.now))
        × (image.new ≡ records_image image.old records.now ram.old)
        × (ram.new ≡ records_ram image.old records.now ram.old) }
{
    imaged_run::run_events_by::<Lent>(image, records, ram)
}

// The same by value.
pub fn muntesulca_events_value(image: &mut [u8], records: &[u8], ram: &mut [u8]) -> u32
    ensures { (result ≡ said_number (opened_said image.old records.now))
        × (image.new ≡ records_image image.old records.now ram.old)
        × (ram.new ≡ records_ram image.old records.now ram.old) }
{
    imaged_run::run_events(image, records, ram)
}
