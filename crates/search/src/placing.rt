// The search: stations are placed from the last position down, by their labels.
ghost use Rattle.std.specs.Prelude.{ℕ, ◌≤◌, true, false, length};
ghost use Rattle.sets.specs.Sets.{has};
ghost use Rattle.sets.specs.Rows.{adj, In};
ghost use Rattle.search.specs.Searches.{Unexceeded, Exceeded, Picked, Blanked, RaisedAt, SearchMade};

use crate::label::{Comparison, Label};
use crate::network::Network;
use arrayvec::ArrayVec;
use sets::StationSet;

// The first n labels are blank again.
fn reset<L: Label + Copy>(labels: &mut [L], n: usize)
    requires { n ≤ length labels.old }
    ensures { Blanked L.BLANK n labels.old labels.new }
{
    labels[..n].fill_with(|| L::BLANK);
}

// The stations among which the next is picked, and the labels of all. The row is a slice, not a `[L; 256]`: with an array each call
// would have to show that 256 labels fit in memory, and would forget the row's length.
#[derive(Drop)]
struct Choice<'a, L> {
    labels: &'a [L],
    among: StationSet,
    ghost room: { 256 ≤ length labels.now },
}

impl<L: Label + Copy> Choice<'_, L> {
    // Whether no label of the stations exceeds that of v.
    fn is_unexceeded(&self, v: u8) -> bool
        ensures { elim result [ true ↦ Unexceeded L.less self.now.labels.now (has self.now.among) v | false ↦ Exceeded L.less self.now.labels.now (has self.now.among) v ] }
    {
        // No `all`: of a closure in generic code nothing is known but what a clause of its own says again.
        for k in self.among {
            if let Comparison::Less = self.labels[v as usize].compare(&self.labels[k as usize]) {
                return false;
            }
        }
        true
    }

    // The lowest-numbered station whose label no label of the stations exceeds.
    fn pick(&self) -> u8
        requires { (x : ℕ) × In self.now.among x }
        ensures { Picked L.less self.now.labels.now (has self.now.among) result }
    {
        for v in self.among {
            if self.is_unexceeded(v) {
                return v;
            }
        }
        unreachable()
    }
}

// Raises the label of each station of the set by the position.
fn raise_all<L: Label + Copy>(labels: &mut [L], which: StationSet, position: u8)
    requires { 256 ≤ length labels.old }
    ensures { RaisedAt L.raised position (has which) labels.old labels.new }
{
    for v in which {
        labels[v as usize] = labels[v as usize].raise(position);
    }
}

// The order: the positions from n - 1 down to 0 are given out, each to the station that is picked, and its unplaced neighbours are raised.
pub(crate) fn place_all<L: Label + Copy>(network: &Network, labels: &mut [L]) -> ArrayVec<u8, 256>
    requires { 256 ≤ length labels.old }
    ensures { SearchMade L.BLANK L.raised L.less network.now.size (adj network.now.rows) result.items labels.old labels.new }
{
    let n = network.size();
    reset(labels, n);
    let mut entries = [0; 256];
    let mut unplaced = network.stations();
    // p is not an index alone: it is the position that is given out, which the labels are raised by.
    for p in (0..n).rev() {
        let choice = Choice {
            labels,
            among: unplaced,
        };
        let v = choice.pick();
        entries[p] = v;
        unplaced.remove(v);
        let near = network.neighbours(v).intersection(unplaced);
        raise_all(labels, near, p as u8);
    }
    let mut order = ArrayVec::from(entries);
    order.truncate(n);
    order
}
