// A third kind of label: sets of positions by inclusion, of which many do not compare.
ghost use Rattle.std.specs.Prelude.{◌≡◌};
ghost use Rattle.search_tests.specs.Inclusions.{within, inclusion_blank, inclusion_raised, inclusion_less};
ghost use Rattle.search_tests.specs.Includes.{inclusion_laws};

use search::{Comparison, Label};
use sets::StationSet;

// Keeps the set of its positions; a label is less than another that holds all of its positions and more.
#[derive(Clone, Copy)]
pub struct InclusionLabel {
    positions: StationSet,
}

// Whether the second set holds each member of the first.
pub(crate) fn is_within(a: StationSet, b: StationSet) -> bool
    ensures { result ≡ within a b }
{
    a.difference(b).is_empty()
}

impl Label for InclusionLabel {
    const BLANK: InclusionLabel = InclusionLabel {
        positions: StationSet::EMPTY,
    };

    ghost BLANK = { inclusion_blank };

    ghost raised = { inclusion_raised };

    ghost less = { inclusion_less };

    ghost laws = { inclusion_laws };

    // As the list label raises, whose set is private to the library.
    fn raise(self, position: u8) -> InclusionLabel {
        let mut positions = self.positions;
        positions.insert(position);
        InclusionLabel { positions }
    }

    fn compare(&self, other: &InclusionLabel) -> Comparison {
        let within = is_within(self.positions, other.positions);
        let around = is_within(other.positions, self.positions);
        Comparison::of(within && !around, around && !within)
    }
}
