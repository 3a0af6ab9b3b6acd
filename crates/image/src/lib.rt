// The MMU's state as bytes, written into a lent buffer: 3,416 of them, little-endian, each field at a fixed place.
#![tactic(auto)]

ghost use Rattle.std.specs.Prelude.{◌++◌, ◌≡◌, ◌+◌, ◌*◌, ◌≤◌, length};
ghost use Rattle.entry.specs.Entry.{policy_number};
ghost use Rattle.writer.specs.Wrote.{HasRoom, Wrote};
ghost use Rattle.image.specs.Image.{switches_of, config_rest, scheme_image, words_image, head_image, room_in, put_state};

use entry::{ReplacementPolicy, TlbConfig};
use entry_image::{flag, put_entries};
use scheme::PagingScheme;
use state::Mmu;
use writer::Out;

// Apart from `front`, whose proof does not see the number that `as` gives an enum.
fn policy_number(p: ReplacementPolicy) -> u8
    ensures { result ≡ policy_number p }
{
    p as u8
}

fn switches(enabled: bool, force: bool, tlb_on: bool) -> u8
    ensures { result ≡ switches_of enabled force tlb_on }
{
    flag(enabled, 1) + flag(force, 2) + flag(tlb_on, 4)
}

// The bytes from 2 to 15: the rest of the configuration, the switches, the scheme, and the TLB's own offset width.
fn front(c: TlbConfig, on: u8, s: PagingScheme, own: u8) -> [u8; 14]
    ensures { result ≡ config_rest c on ++ scheme_image s own }
{
    let [w0, w1, w2, w3] = s.level_bits;
    [
        c.associativity,
        policy_number(c.replacement),
        c.hit_latency,
        c.miss_penalty,
        on,
        0,
        s.offset_bits,
        s.levels,
        w0,
        w1,
        w2,
        w3,
        own,
        0,
    ]
}

// Eight bytes for each number.
fn put_words(out: &mut Out<'_>, ws: &[u64])
    requires { HasRoom (8 * length ws.now) out.old }
    ensures { Wrote (8 * length ws.now) out.old out.new (words_image ws.now) }
{
    for w in ws {
        out.bytes(&w.to_le_bytes());
    }
}

// Everything but the classes, the hands and the entries.
fn put_head(out: &mut Out<'_>, m: Mmu)
    requires { HasRoom 84 out.old }
    ensures { Wrote 84 out.old out.new (head_image m) }
{
    let stats = m.tlb.stats;
    let on = switches(m.enabled, m.force_translate, m.tlb_enabled);
    out.bytes(&m.tlb.config.entry_count.to_le_bytes());
    out.bytes(&front(m.tlb.config, on, m.scheme, m.tlb.offset_bits));
    out.bytes(&m.satp.raw.to_le_bytes());
    out.bytes(&m.tlb.age_counter.to_le_bytes());
    put_words(
        out,
        &[
            m.tlb.count as u64,
            m.tlb.sets as u64,
            m.tlb.mask_count as u64,
            stats.hits,
            stats.misses,
            stats.evictions,
            stats.page_faults,
        ],
    );
}

// The state's image at the start of a buffer, whose rest is kept; false, and nothing written, where it has no room.
#[tactic(auto, unfolding(crate::specs::Image::put_state))]
pub fn put_state(m: Mmu, out: &mut [u8]) -> bool
    ensures { (result ≡ room_in out.old) × (out.new ≡ put_state m out.old) }
{
    if out.len() < 3416 {
        return false;
    }
    let mut image = Out::new(out);
    put_head(&mut image, m);
    image.bytes(&m.tlb.superpage_masks);
    image.bytes(&m.tlb.clock_hands);
    put_entries(&mut image, m.tlb.entries);
    true
}
