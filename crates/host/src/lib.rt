// The host's calls: one MMU is kept for the session and lent to each call. Document 01 wants them thin, over a core that goes by value, so both
// kinds stand. Each takes the state out, calls the core, stores the state that comes back, and returns the answer. Each is proved by a walk of its
// code; the walk is a law of the crate `lent`, one for each shape of call.
#![tactic(auto)]

ghost use Rattle.std.specs.Prelude.{◌≡◌};
ghost use Rattle.mmu.specs.Calls.{set_scheme_of, reconfigure_of, flush_of, flush_vaddr_of, translate_of, translate_ram};
ghost use Rattle.host.specs.Lent.{kept, served};

use access::Answer;
use entry::TlbConfig;
use scheme::{PagingScheme, Refusal};
use state::Mmu;
use walk::Access;

pub fn set_scheme(m: &mut Mmu, s: PagingScheme) -> Result<(), Refusal>
    ensures { kept result m.new ≡ set_scheme_of m.old s }
{
    let t = mmu::set_scheme(*m, s);
    *m = t.mmu;
    t.said
}

pub fn reconfigure(m: &mut Mmu, config: TlbConfig) -> Result<(), Refusal>
    ensures { kept result m.new ≡ reconfigure_of m.old config }
{
    let t = mmu::reconfigure(*m, config);
    *m = t.mmu;
    t.said
}

pub fn flush(m: &mut Mmu) -> Result<(), Refusal>
    ensures { kept result m.new ≡ flush_of m.old }
{
    let t = mmu::flush(*m);
    *m = t.mmu;
    t.said
}

pub fn flush_vaddr(m: &mut Mmu, vaddr: u64) -> Result<(), Refusal>
    ensures { kept result m.new ≡ flush_vaddr_of m.old vaddr }
{
    let t = mmu::flush_vaddr(*m, vaddr);
    *m = t.mmu;
    t.said
}

// RAM is lent beside the state, and passed on.
pub fn translate(m: &mut Mmu, q: Access, ram: &mut [u8]) -> Answer
    ensures { (served result m.new ≡ translate_of m.old q ram.old) × (ram.new ≡ translate_ram m.old q ram.old) }
{
    let t = mmu::translate(*m, q, ram);
    *m = t.mmu;
    t.said
}
