// Pairs of stations, and the two bits that say what stands between them.
ghost use Rattle.std.specs.Prelude.{◌≡◌, ◌<◌};

use crate::square::Bit;

// Two different stations.
#[derive(Clone, Copy)]
pub(crate) struct Pair {
    pub(crate) lower: u8,
    pub(crate) upper: u8,
    ghost order: { lower < upper },
}

impl Pair {
    // The pair of a lower and an upper station.
    pub(crate) fn new(lower: u8, upper: u8) -> Self
        requires { lower < upper }
        ensures low { result.lower ≡ lower }
        ensures high { result.upper ≡ upper }
    {
        Pair { lower, upper }
    }

    // The bit that says that the pair stands.
    pub(crate) fn standing(self) -> Bit
        ensures row { result.row ≡ self.lower }
        ensures column { result.column ≡ self.upper }
    {
        Bit {
            row: self.lower,
            column: self.upper,
        }
    }

    // The bit that says that a standing pair is a tie.
    pub(crate) fn tied(self) -> Bit
        ensures row { result.row ≡ self.upper }
        ensures column { result.column ≡ self.lower }
    {
        Bit {
            row: self.upper,
            column: self.lower,
        }
    }
}
