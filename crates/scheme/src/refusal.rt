// Why a call is refused, and its number.
ghost use Rattle.std.specs.Prelude.{◌≡◌};
ghost use Rattle.scheme.specs.Refusals.{number_of};

#[derive(Clone, Copy)]
pub enum Refusal {
    BadScheme,
    TooManyEntries,
    Unfit,
    RootUnaligned,
    TopTableOutside,
    BadFlags,
    NoRoom,
    BadLayout,
    BadMode,
}

impl Refusal {
    // A match and no discriminants: the number is document 01's, and is stated by its definition.
    pub fn number(self) -> u32
        ensures { result ≡ number_of self }
    {
        match self {
            Refusal::BadScheme => 1,
            Refusal::TooManyEntries => 2,
            Refusal::Unfit => 3,
            Refusal::RootUnaligned => 4,
            Refusal::TopTableOutside => 5,
            Refusal::BadFlags => 6,
            Refusal::NoRoom => 7,
            Refusal::BadLayout => 8,
            Refusal::BadMode => 10,
        }
    }
}
