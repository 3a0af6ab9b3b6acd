// Schemes, satp, and the map's offset.
use scheme::{PagingScheme, Refusal, Satp, SatpMode};
use show::{Hex, YesNo, say};

fn answer(rt: &impl Print, a: Result<u64, Refusal>) {
    match a {
        Ok(n) => say!(rt; " {}", Hex(n)),
        Err(r) => tell::say_refused(rt, r),
    }
}

fn classes(rt: &impl Print, s: PagingScheme) {
    say!(rt; "  classes");
    match s.leaf_masks() {
        Ok(c) => {
            say!(rt; " {}", c.count);
            for mask in &c.masks {
                say!(rt; " {mask}");
            }
        }
        Err(r) => tell::say_refused(rt, r),
    }
    say!(rt; "\n");
}

fn level(rt: &impl Print, s: PagingScheme, l: u8) {
    say!(rt; "  level {l}");
    answer(rt, s.shift_at(l));
    answer(rt, s.page_bytes_at(l));
    answer(rt, s.entries_at(l));
    say!(rt; "\n");
}

pub fn scheme(rt: &impl Print, s: PagingScheme) {
    say!(rt;
        "scheme {} {} {}",
        s.offset_bits,
        s.num_levels(),
        s.total_bits()
    );
    say!(rt; " {}", YesNo(s.is_valid()));
    answer(rt, s.root_pa(65536));
    say!(rt; "\n");
    classes(rt, s);
    level(rt, s, 0);
    level(rt, s, 3);
}

fn mode_name(mode: SatpMode, wide: bool) -> &'static str {
    match mode {
        SatpMode::Bare => "bare",
        SatpMode::Paged if wide => "sv39",
        SatpMode::Paged => "sv32",
        SatpMode::Neither => "neither",
    }
}

// The fields of a satp, of Sv32 or of Sv39.
pub fn satp(rt: &impl Print, raw: u64, wide: bool) {
    let s = if wide {
        PagingScheme::sv39()
    } else {
        PagingScheme::sv32()
    };
    let r = Satp::new(raw);
    let mode = mode_name(s.satp_mode(r), wide);
    say!(rt;
        "satp {} {mode} {} {}\n",
        Hex(raw),
        s.asid_of(r),
        Hex(s.root_of(r))
    );
}

// The same of the one that is made for a root and an ASID.
pub fn made(rt: &impl Print, root: u64, asid: u16, wide: bool) {
    let raw = if wide {
        scheme::make_satp39(root, asid)
    } else {
        u64::from(scheme::make_satp(script::low(root), asid))
    };
    satp(rt, raw, wide);
}

// The byte delta of a map, whose kind and MiB are read as the trace bundle has them.
pub fn delta(rt: &impl Print, kind: u64, mib: u64) {
    let mut bytes = [0u8; 20];
    tell::put(&mut bytes, 0, 0x100 * (kind % 256), false);
    tell::put(&mut bytes, 4, mib, false);
    let spec = bundle::body_at(&bytes, 0).spec;
    say!(rt; "delta {}\n", Hex(u64::from(spec.kind.delta_bytes())));
}
