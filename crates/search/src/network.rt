// The standing network of a store, row by row.
ghost use Rattle.std.specs.Prelude.{◌≡◌, ℕ, ◌≤◌, ◌||◌, ◌↔◌, nat_lt};
ghost use Rattle.std.proofs.Props.{props};
ghost use Rattle.graph.specs.Graphs.{Simple, Linked};
ghost use Rattle.sets.specs.Sets.{has};
ghost use Rattle.sets.specs.Rows.{adj, In, Touched, gaps};
ghost use Rattle.store.specs.Nets.{standing};

use sets::rows::{note_gaps, part_of, row, touching, widen};
use sets::{Rows, StationSet};
use store::Store;

// The neighbours of each station, and how many stations there are: there are rows for all 256, so the number stands beside them.
#[derive(Drop)]
pub(crate) struct Network {
    rows: Rows,
    size: usize,
    ghost few: { size ≤ 256 },
    ghost simple: { Simple size (adj rows) } by { Prim.hlevel props },
}

impl Network {
    // The network that stands in the store.
    pub(crate) fn of<S: Store>(store: &S) -> Network
        ensures size { result.size ≡ (S.meaning store.now).size }
        ensures edges { (a b : ℕ) → adj result.rows a b ≡ standing (S.meaning store.now) a b }
    {
        Network {
            rows: rows_of(store),
            size: store.size(),
        }
    }

    // How many stations there are.
    pub(crate) fn size(&self) -> usize
        ensures { result ≡ self.now.size }
    {
        self.size
    }

    // The stations.
    pub(crate) fn stations(&self) -> StationSet
        ensures { (v : ℕ) → has result v ≡ nat_lt v self.now.size }
    {
        StationSet::below(self.size)
    }

    // The neighbours of v.
    pub(crate) fn neighbours(&self, v: u8) -> StationSet
        ensures { (b : ℕ) → has result b ≡ adj self.now.rows v b }
    {
        row(&self.rows, v)
    }

    // The stations that have a neighbour in the set.
    pub(crate) fn touching(&self, part: StationSet) -> StationSet
        ensures { (a : ℕ) → In result a ↔ Touched (adj self.now.rows) (has part) a }
    {
        touching(&self.rows, part)
    }

    // The stations that chains of neighbours inside `within` link with c.
    pub(crate) fn part_of(&self, within: StationSet, c: u8) -> StationSet
        ensures { (d : ℕ) → In result d ↔ Linked (adj self.now.rows) (In within) c d }
    {
        part_of(&self.rows, within, c)
    }

    // Notes each pair of different members of the border that are not neighbours.
    pub(crate) fn note_gaps(&self, border: StationSet, noted: &mut Rows)
        ensures { (a b : ℕ) → adj noted.new a b ≡ (adj noted.old a b || gaps (adj self.now.rows) (has border) a b) }
    {
        note_gaps(&self.rows, border, noted)
    }
}

// The neighbours of station a.
fn row_of<S: Store>(store: &S, a: usize) -> StationSet
    ensures { (b : ℕ) → has result b ≡ standing (S.meaning store.now) a b }
{
    let mut neighbours = StationSet::empty();
    for b in 0..store.size() {
        if store.mark(a, b) > 0 {
            neighbours.insert(b as u8);
        }
    }
    neighbours
}

// The neighbours of every station.
pub fn rows_of<S: Store>(store: &S) -> Rows
    ensures { (a b : ℕ) → adj result a b ≡ standing (S.meaning store.now) a b }
{
    let mut rows = [StationSet::EMPTY; 256];
    for a in 0..store.size() {
        widen(&mut rows, a as u8, row_of(store, a));
    }
    rows
}
