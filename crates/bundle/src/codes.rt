// The bundle's numbers, and what they stand for.
ghost use Rattle.std.specs.Prelude.{◌≡◌};
ghost use Rattle.bundle.specs.Codes.{policy_of, access_of, mode_of, rule_of, kind_of};

use entry::ReplacementPolicy;
use plan::MapRule;
use scheme::{AccessType, MapKind, PrivMode};

// A number as a bundle has it.
#[derive(Clone, Copy)]
pub struct Code(pub u8);

impl From<Code> for ReplacementPolicy {
    ghost from_gives = { λ c p. p ≡ policy_of c.0 };

    fn from(c: Code) -> ReplacementPolicy {
        match c.0 {
            0 => ReplacementPolicy::Lru,
            1 => ReplacementPolicy::Mru,
            2 => ReplacementPolicy::Fifo,
            3 => ReplacementPolicy::Lfu,
            4 => ReplacementPolicy::Clock,
            _ => ReplacementPolicy::Random,
        }
    }
}

impl From<Code> for AccessType {
    ghost from_gives = { λ c k. k ≡ access_of c.0 };

    fn from(c: Code) -> AccessType {
        match c.0 {
            0 => AccessType::Fetch,
            1 => AccessType::Load,
            _ => AccessType::Store,
        }
    }
}

impl From<Code> for PrivMode {
    ghost from_gives = { λ c m. m ≡ mode_of c.0 };

    fn from(c: Code) -> PrivMode {
        match c.0 {
            0 => PrivMode::U,
            1 => PrivMode::S,
            _ => PrivMode::M,
        }
    }
}

impl From<Code> for MapRule {
    ghost from_gives = { λ c r. r ≡ rule_of c.0 };

    fn from(c: Code) -> MapRule {
        match c.0 {
            0 => MapRule::Relative,
            _ => MapRule::Absolute,
        }
    }
}

// Kept a function: it takes two numbers, and a type of both just for a From is no plainer.
pub fn kind_from(n: u8, mib: u32) -> MapKind
    ensures { result ≡ kind_of n mib }
{
    match n {
        0 => MapKind::Identity,
        _ => MapKind::Offset(mib.cast_signed()),
    }
}
