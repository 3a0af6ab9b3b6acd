// How an installed map moves addresses.
ghost use Rattle.std.specs.Prelude.{◌≡◌};
ghost use Rattle.scheme.specs.Map.{delta, delta_of};

#[derive(Clone, Copy)]
pub enum MapKind {
    Identity,
    Offset(i32),
}

// A signed count of MiB as a byte delta mod 2^32.
fn mib_bytes(mib: i32) -> u32
    ensures { result ≡ delta mib }
{
    mib.cast_unsigned().wrapping_mul(0x10_0000)
}

impl MapKind {
    // The byte delta added to each virtual address.
    pub fn delta_bytes(self) -> u32
        ensures { result ≡ delta_of self }
    {
        match self {
            MapKind::Identity => 0,
            MapKind::Offset(mib) => mib_bytes(mib),
        }
    }
}
