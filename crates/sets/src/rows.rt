// Rows of sets: the adjacency of a network, row v holding the neighbours of v.
ghost use Rattle.std.specs.Prelude.{◌≡◌, ℕ, false, ◌&&◌, ◌||◌, ◌↔◌, ◌==◌};
ghost use Rattle.graph.specs.Graphs.{Linked};
ghost use Rattle.sets.specs.Sets.{has};
ghost use Rattle.sets.specs.Rows.{adj, In, Touched, gaps};

use crate::station_set::StationSet;

pub type Rows = [StationSet; 256];

// The neighbours of v.
pub fn row(rows: &Rows, v: u8) -> StationSet
    ensures { (b : ℕ) → has result b ≡ adj rows.now v b }
{
    rows[v as usize]
}

// More neighbours for u.
pub fn widen(rows: &mut Rows, u: u8, more: StationSet)
    ensures { (a b : ℕ) → adj rows.new a b ≡ (adj rows.old a b || (a == u && has more b)) }
{
    rows[u as usize] = rows[u as usize].union(more);
}

// No neighbours for any station.
pub fn clear(rows: &mut Rows)
    ensures { (a b : ℕ) → adj rows.new a b ≡ false }
{
    rows.fill(StationSet::EMPTY);
}

// The stations that have a neighbour in the set.
#[tactic(auto, using(crate::proofs::Rising::nobody_from))]
pub fn touching(rows: &Rows, part: StationSet) -> StationSet
    ensures { (a : ℕ) → In result a ↔ Touched (adj rows.now) (has part) a }
{
    let mut all = StationSet::empty();
    for d in part {
        all = all.union(row(rows, d));
    }
    all
}

// The stations that chains of neighbours inside `within` link with c.
pub fn part_of(rows: &Rows, within: StationSet, c: u8) -> StationSet
    ensures { (d : ℕ) → In result d ↔ Linked (adj rows.now) (In within) c d }
{
    let mut seen = StationSet::empty();
    if !within.contains(c) {
        return seen;
    }
    seen.insert(c);
    let mut todo = seen;
    // No `for`: the list grows while it is worked off, so an iterator over it would be no plainer.
    while let Some(v) = todo.first() {
        todo.remove(v);
        let fresh = row(rows, v).intersection(within).difference(seen);
        seen = seen.union(fresh);
        todo = todo.union(fresh);
    }
    seen
}

// Notes each pair of different members of the border that are not adjacent.
#[tactic(auto, using(crate::proofs::Rising::nobody_from))]
pub fn note_gaps(rows: &Rows, border: StationSet, noted: &mut Rows)
    ensures { (a b : ℕ) → adj noted.new a b ≡ (adj noted.old a b || gaps (adj rows.now) (has border) a b) }
{
    for a in border {
        let mut others = border.difference(row(rows, a));
        others.remove(a);
        widen(noted, a, others);
    }
}
