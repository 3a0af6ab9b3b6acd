// A session on one MMU: what it is set up with, and what happens in it.
#![tactic(auto)]

ghost use Rattle.std.specs.Prelude.{◌≡◌};
ghost use Rattle.entry.specs.Geometry.{default_config};
ghost use Rattle.state.specs.State.{state_new};
ghost use Rattle.mmu.specs.Calls.{refused_with, set_scheme_of};
ghost use Rattle.session.specs.Session.{switched, start_of, settings_said};

use entry::TlbConfig;
use mmu::Kept;
use scheme::{PagingScheme, Refusal, Satp};
use state::Mmu;
use walk::Access;

// What stays as it is while a session runs; the TLB's configuration is not part of it.
#[derive(Clone, Copy)]
pub struct Settings {
    pub scheme: PagingScheme,
    pub enabled: bool,
    pub force: bool,
    pub tlb_on: bool,
    pub satp: u64,
}

// What may happen.
#[derive(Clone, Copy)]
pub enum Event {
    Translate(Access),
    Flush,
    FlushAt(u64),
}

// The scheme, satp and the switches taken over by a new state.
fn take_over(blank: Mmu, t: Settings) -> Mmu
    ensures { result ≡ switched (set_scheme_of blank t.scheme).mmu t }
{
    Mmu {
        satp: Satp::new(t.satp),
        enabled: t.enabled,
        force_translate: t.force,
        tlb_enabled: t.tlb_on,
        ..mmu::set_scheme(blank, t.scheme).mmu
    }
}

// What settings that are refused give: the default state.
#[tactic(auto, using(mmu::proofs::Refusing::default_room), unfolding(mmu::specs::Calls::new_of))]
pub fn refused(why: Refusal) -> Kept
    ensures { result ≡ refused_with why (state_new default_config) }
{
    Kept {
        said: Err(why),
        mmu: mmu::new(entry::default_config()).mmu,
    }
}

// The state that a configuration and settings give, or why they are refused and the default state.
#[tactic(auto, unfolding(mmu::specs::Calls::new_of, crate::specs::Session::start_of, crate::specs::Session::settings_said, scheme::specs::Refusals::on_grant))]
pub fn set_up(config: TlbConfig, t: Settings) -> Kept
    ensures { (result.said ≡ settings_said config t) × (result.mmu ≡ start_of config t) }
{
    if !t.scheme.is_valid() {
        return refused(Refusal::BadScheme);
    }
    let fresh = mmu::new(config);
    if fresh.said.is_err() {
        return fresh;
    }
    Kept {
        said: Ok(()),
        mmu: take_over(fresh.mmu, t),
    }
}
