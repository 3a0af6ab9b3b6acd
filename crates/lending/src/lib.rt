// An MMU that is kept in a local and lent: to one access, and in a session in small to each of the host's calls, one after another. The
// parameters are plain, for callers that have their state by value.
#![tactic(auto)]

ghost use Rattle.std.specs.Prelude.{◌≡◌};
ghost use Rattle.mmu.specs.Calls.{translate_of, translate_ram};
ghost use Rattle.lending.specs.Session.{session_of};

use access::Served;
use entry::TlbConfig;
use mmu::Kept;
use scheme::PagingScheme;
use state::Mmu;
use walk::Access;

// One access through the host's call, for a caller that has its state by value.
pub fn translate_kept(m: Mmu, q: Access, ram: &mut [u8]) -> Served
    ensures { (result ≡ translate_of m q ram.old) × (ram.new ≡ translate_ram m q ram.old) }
{
    let mut kept = m;
    let said = host::translate(&mut kept, q, ram);
    Served { said, mmu: kept }
}

// What each call answers, and the state that it leaves.
#[derive(Clone, Copy)]
pub struct Session {
    pub translated: Served,
    pub dropped: Kept,
    pub flushed: Kept,
    pub adopted: Kept,
    pub restarted: Kept,
}

pub fn run_session(
    m: Mmu,
    q: Access,
    vaddr: u64,
    s: PagingScheme,
    config: TlbConfig,
    ram: &mut [u8],
) -> Session
    ensures { (result ≡ session_of m q vaddr s config ram.old) × (ram.new ≡ translate_ram m q ram.old) }
{
    // Each answer has a local of its own: with the calls in the records' fields, `run_session_spec`, a walk by hand, did not close.
    let mut kept = m;
    let answer = host::translate(&mut kept, q, ram);
    let translated = Served {
        said: answer,
        mmu: kept,
    };
    let drop = host::flush_vaddr(&mut kept, vaddr);
    let dropped = Kept {
        said: drop,
        mmu: kept,
    };
    let flush = host::flush(&mut kept);
    let flushed = Kept {
        said: flush,
        mmu: kept,
    };
    let adopt = host::set_scheme(&mut kept, s);
    let adopted = Kept {
        said: adopt,
        mmu: kept,
    };
    let restart = host::reconfigure(&mut kept, config);
    let restarted = Kept {
        said: restart,
        mmu: kept,
    };
    Session {
        translated,
        dropped,
        flushed,
        adopted,
        restarted,
    }
}
