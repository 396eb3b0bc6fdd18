// The words of a line, by their kind.
ghost use Rattle.std.specs.Prelude.{◌≡◌};
ghost use Rattle.book.specs.Shown.{part_of};

use crate::part::Part;

// A word by its kind: S, T, or a name. Parts of the book with their place: a form that the project prescribes.
#[derive(Clone, Copy)]
pub enum Word<'a> {
    StationKind(Part<'a>),
    TieKind(Part<'a>),
    Name(Part<'a>),
}

impl<'a> Word<'a> {
    // The bytes of the word, and their place.
    pub(crate) fn part(self) -> Part<'a>
        ensures { result ≡ part_of self.entry }
    {
        match self {
            Word::StationKind(p) | Word::TieKind(p) | Word::Name(p) => p,
        }
    }
}
