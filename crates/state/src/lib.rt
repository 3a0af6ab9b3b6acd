// The MMU's state, and which states are fit.
#![tactic(auto)]

ghost use Rattle.std.specs.Prelude.{◌≡◌};
ghost use Rattle.state.specs.State.{fit_of};

use scheme::{PagingScheme, Satp};
use tlb::Tlb;

#[derive(Clone, Copy)]
pub struct Mmu {
    pub tlb: Tlb,
    pub scheme: PagingScheme,
    pub satp: Satp,
    pub enabled: bool,
    pub force_translate: bool,
    pub tlb_enabled: bool,
}

// Whether the state is fit, as document 01 says: ages, hands, ASIDs, VPNs and PPNs are free.
pub fn fits(m: Mmu) -> bool
    ensures { result ≡ fit_of m }
{
    let Ok(c) = m.scheme.leaf_masks() else {
        return false;
    };
    let levels = usize::from(m.scheme.levels);
    let same = m.tlb.superpage_masks[..levels] == c.masks[..levels];
    tlb::fits(m.tlb)
        && m.tlb.offset_bits == m.scheme.offset_bits
        && m.tlb.mask_count == levels
        && same
}
