// The register satp, whose fields the scheme's format places, and the words that turn translation on for a root table.
ghost use Rattle.std.specs.Prelude.{◌≡◌};
ghost use Rattle.scheme.specs.Scheme.{sv32, sv39, format_of};
ghost use Rattle.scheme.specs.Satp.{satp_with, mode_named, satp_in};

use crate::PagingScheme;

// Bare; on, by the scheme's own number; or a number that is neither.
#[derive(Clone, Copy)]
pub enum SatpMode {
    Bare,
    Paged,
    Neither,
}

#[derive(Clone, Copy)]
pub struct Satp {
    pub raw: u64,
}

impl Satp {
    pub fn new(raw: u64) -> Self
        ensures { result ≡ satp_with raw }
    {
        Satp { raw }
    }
}

// What a mode's number says, where `on` turns translation on.
pub fn mode_named(on: u8, n: u64) -> SatpMode
    ensures { result ≡ mode_named on n }
{
    match n {
        0 => SatpMode::Bare,
        _ if n == u64::from(on) => SatpMode::Paged,
        _ => SatpMode::Neither,
    }
}

// The word that turns translation on for the root table's address, in the scheme's format.
fn on_for(scheme: PagingScheme, root_pa: u64, asid: u16) -> u64
    ensures { result ≡ satp_in (format_of scheme) root_pa asid }
{
    let f = scheme.format();
    let mode = u64::from(f.mode) << f.mode_at;
    let asid = bits::low_bits(u64::from(asid), u32::from(f.asid_bits)) << f.asid_at;
    mode | asid | bits::low_bits(root_pa >> 12, u32::from(f.asid_at))
}

// The satp of mode 1 for the root table's address.
pub fn make_satp(root_pa: u32, asid: u16) -> u32
    ensures { result ≡ satp_in sv32 root_pa asid }
{
    on_for(PagingScheme::sv32(), u64::from(root_pa), asid) as u32
}

// The same for Sv39, of mode 8.
pub fn make_satp39(root_pa: u64, asid: u16) -> u64
    ensures { result ≡ satp_in sv39 root_pa asid }
{
    on_for(PagingScheme::sv39(), root_pa, asid)
}
