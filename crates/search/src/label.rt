// Labels of a search: what a kind of label owes, and the two kinds of the library.
ghost use Rattle.std.specs.Prelude.{◌≡◌, ℕ, Bool};
ghost use Rattle.graph.specs.Search.{LabelLaws};
ghost use Rattle.search.specs.Kinds.{compared, count_of, count_raised, count_less, list_blank, list_raised, list_less};
ghost use Rattle.search.specs.Counts.{count_laws};
ghost use Rattle.search.specs.Lists.{list_laws};

use sets::StationSet;

// How a label compares with another; greater means that the other is less. An Option<Ordering> would have an Equal, which no kind
// answers.
#[derive(Clone, Copy, Debug, PartialEq, Eq, Hash)]
pub enum Comparison {
    Less,
    Greater,
    Neither,
}

impl Comparison {
    // How two labels compare, by whether the first is less than the second and whether the second is less than the first.
    pub fn of(less: bool, greater: bool) -> Comparison
        ensures { result ≡ compared less greater }
    {
        if less {
            Comparison::Less
        } else if greater {
            Comparison::Greater
        } else {
            Comparison::Neither
        }
    }
}

// A kind of label. A search gives each station the blank label and raises it by the positions of its placed neighbours.
pub trait Label: Sized {
    const BLANK: Self;

    ghost BLANK: { Self };

    ghost raised: { Self → ℕ → Self };

    ghost less: { Self → Self → Bool };

    // The blank label, as BLANK is.
    fn new_blank() -> Self
        ensures { result ≡ BLANK }
    {
        Self::BLANK
    }

    // The label raised by a position.
    fn raise(self, position: u8) -> Self
        ensures { result ≡ raised self position };

    fn compare(&self, other: &Self) -> Comparison
        ensures { result ≡ compared (less self.now other.now) (less other.now self.now) };

    ghost laws: { LabelLaws BLANK raised less };
}

// Counts the raisings, and stays at 65,535.
#[derive(Clone, Copy)]
pub struct CountLabel {
    count: u16,
}

impl Label for CountLabel {
    const BLANK: CountLabel = CountLabel { count: 0 };

    ghost BLANK = { count_of 0 };

    ghost raised = { count_raised };

    ghost less = { count_less };

    ghost laws = { count_laws };

    fn raise(self, position: u8) -> CountLabel {
        CountLabel {
            count: self.count.saturating_add(1),
        }
    }

    fn compare(&self, other: &CountLabel) -> Comparison {
        Comparison::of(self.count < other.count, other.count < self.count)
    }
}

// Keeps the set of its positions; of two sets, the one that holds the highest position in which they differ is greater.
#[derive(Clone, Copy)]
pub struct ListLabel {
    positions: StationSet,
}

impl Label for ListLabel {
    const BLANK: ListLabel = ListLabel {
        positions: StationSet::EMPTY,
    };

    ghost BLANK = { list_blank };

    ghost raised = { list_raised };

    ghost less = { list_less };

    ghost laws = { list_laws };

    fn raise(self, position: u8) -> ListLabel {
        let mut positions = self.positions;
        positions.insert(position);
        ListLabel { positions }
    }

    fn compare(&self, other: &ListLabel) -> Comparison {
        let less = self.positions.less(other.positions);
        Comparison::of(less, !less && other.positions.less(self.positions))
    }
}
