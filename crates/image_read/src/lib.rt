// The MMU's state, read from its image, and whether bytes are an image.
#![tactic(auto)]

ghost use Rattle.std.specs.Prelude.{◌≡◌, ◌+◌, ◌≤◌, length};
ghost use Rattle.image_read.specs.Reading.{stats_read, tlb_read, state_at, good_image, state_read};

use bundle::{config_at, scheme_at};
use entry_image::{entries_in, refs_ok};
use layout::{bytes_at, u32_at, u64_at};
use scheme::{Refusal, Satp};
use state::Mmu;
use tlb::{Tlb, TlbStats};

#[tactic(auto, unfolding(crate::specs::Reading::stats_read))]
fn stats_in(s: &[u8], at: usize) -> TlbStats
    requires { at + 32 ≤ length s.now }
    ensures { result ≡ stats_read s.now at }
{
    TlbStats {
        hits: u64_at(s, at),
        misses: u64_at(s, at + 8),
        evictions: u64_at(s, at + 16),
        page_faults: u64_at(s, at + 24),
    }
}

#[tactic(auto, unfolding(crate::specs::Reading::tlb_read))]
fn tlb_in(s: &[u8]) -> Tlb
    requires { 3416 ≤ length s.now }
    ensures { result ≡ tlb_read s.now 0 }
{
    Tlb {
        entries: entries_in(s, 216),
        clock_hands: bytes_at(s, 88),
        count: u64_at(s, 28) as usize,
        sets: u64_at(s, 36) as usize,
        age_counter: u32_at(s, 24),
        config: config_at(s, 0),
        stats: stats_in(s, 52),
        offset_bits: s[14],
        superpage_masks: bytes_at(s, 84),
        mask_count: u64_at(s, 44) as usize,
    }
}

fn mmu_in(s: &[u8]) -> Mmu
    requires { 3416 ≤ length s.now }
    ensures { result ≡ state_at s.now 0 }
{
    let switches = s[6];
    Mmu {
        tlb: tlb_in(s),
        scheme: scheme_at(s, 8),
        satp: Satp::new(u64_at(s, 16)),
        enabled: switches & 0x1 != 0,
        force_translate: switches & 0x2 != 0,
        tlb_enabled: switches & 0x4 != 0,
    }
}

#[tactic(auto, unfolding(crate::specs::Reading::good_image))]
fn is_image(s: &[u8]) -> bool
    ensures { result ≡ good_image s.now }
{
    s.len() == 3416 && s[3] <= 5 && s[6] <= 7 && s[7] == 0 && s[15] == 0 && refs_ok(s, 216)
}

// The state that an image holds, or refusal 8.
#[tactic(auto, using(crate::proofs::Good::good_length), unfolding(crate::specs::Reading::state_read))]
pub fn state_in(s: &[u8]) -> Result<Mmu, Refusal>
    ensures { result ≡ state_read s.now }
{
    if !is_image(s) {
        return Err(Refusal::BadLayout);
    }
    Ok(mmu_in(s))
}
