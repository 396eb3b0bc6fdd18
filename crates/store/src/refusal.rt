// Why a call outside the field book is refused, each with its documented number.
ghost use Rattle.std.specs.Prelude.{◌≡◌, Some};
ghost use Rattle.store.specs.Refusals.{number as number_of, refused_text};

use std::error::Error;
use std::fmt;

#[derive(Clone, Copy, Debug, PartialEq, Eq, Hash)]
pub enum Refusal {
    StationOutside = 1,
    SameStation = 2,
    PairStands = 3,
    NoRoom = 4,
    SheetLength = 5,
    SizeOutside = 6,
    PairMalformed = 7,
    PairNotAbove = 8,
    AreaTooShort = 9,
    StoreHoldsFill = 10,
    StripTooShort = 11,
    TakeOutside = 12,
    AlreadyTaken = 13,
    ShortfallExceedsRoom = 14,
    StationsLeft = 15,
    NumberPastLast = 16,
}

impl Refusal {
    // The documented number of the refusal.
    pub fn number(&self) -> u8
        ensures { result ≡ number_of self.now }
    {
        *self as u8
    }
}

impl fmt::Display for Refusal {
    ghost output = { λ r. Some (refused_text r) };

    // `refused N`, with the number.
    fn fmt<W: fmt::Write>(&self, f: &mut fmt::Formatter<W>) -> fmt::Result {
        write!(f, "refused {}", self.number())
    }
}

impl Error for Refusal {}
