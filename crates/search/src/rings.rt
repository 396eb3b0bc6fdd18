// A ring of a network that is not chordal: a station, two neighbours of it that lack their pair on one border, and a shortest way between
// these through the part.
ghost use Rattle.std.specs.Prelude.{◌≡◌, ℕ, ◌<◌, ◌≤◌, true, false, length, drop as after, MatchOption};
ghost use Rattle.graph.specs.Graphs.{Free, Shortfall, Walk, Ring, Chordal};
ghost use Rattle.sets.specs.Sets.{has, size};
ghost use Rattle.sets.specs.Rows.{adj, In};
ghost use Rattle.search.specs.Layers.{level, Layered, Descends, Traced};

use crate::marks::{mark_all, marked};
use crate::network::Network;
use crate::shortfall::note_shortfall;
use arrayvec::ArrayVec;
use sets::StationSet;
use sets::rows::row;

// The first station with a shortfall, and the first pair of it.
fn missing_pair(network: &Network) -> Option<(u8, u8, u8)>
    ensures { MatchOption result ((x : ℕ) → x < network.now.size → Free (adj network.now.rows) x) (λ w. Shortfall (adj network.now.rows) w.0 w.1 w.2) }
{
    let mut missing = [StationSet::EMPTY; 256];
    let mut found = None;
    // Nested loops left by a label are a form that the project prescribes.
    'search: for v in 0..network.size() {
        note_shortfall(network, v as u8, &mut missing);
        for a in 0..network.size() {
            if let Some(b) = row(&missing, a as u8).first() {
                found = Some((v as u8, a as u8, b));
                break 'search;
            }
        }
    }
    found
}

// Marks b and the stations of the set, up to the distance of a, by one more than their distance from b through the set;
// answers the distance of a.
fn mark_layers(network: &Network, within: StationSet, a: u8, b: u8, marks: &mut [u8; 256]) -> usize
    requires few { size (has within) 256 ≤ 254 }
    requires end { In within a }
    requires start { has within b ≡ false }
    requires walk { Walk (adj network.now.rows) (In within) b a }
    ensures { Layered (adj network.now.rows) (has within) a b (level marks.new) result }
{
    marks.fill(0);
    marks[b as usize] = 1;
    let mut left = within;
    let mut d = 0;
    // d counts no index: it is the distance of the layer.
    while left.contains(a) {
        let last = marked(marks, d as u8 + 1);
        let fresh = network.touching(last).intersection(left);
        left = left.difference(fresh);
        d += 1;
        mark_all(marks, fresh, d as u8 + 1);
    }
    d
}

// The stations v and a, and then from each layer below that of a a neighbour of the station before.
fn trace(network: &Network, marks: &[u8; 256], v: u8, a: u8, d: usize) -> ArrayVec<u8, 256>
    requires few { d ≤ 254 }
    requires start { level marks.now d a ≡ true }
    requires descends { Descends (adj network.now.rows) (level marks.now) d }
    ensures { Traced (adj network.now.rows) (level marks.now) v a d 0 result.items }
{
    let mut ring = ArrayVec::new();
    ring.push(v);
    ring.push(a);
    let mut x = a;
    // e is no index: it is the layer, by whose mark the next station is found.
    for e in (0..d).rev() {
        let layer = marked(marks, e as u8 + 1);
        let Some(y) = network.neighbours(x).intersection(layer).first() else {
            unreachable()
        };
        ring.push(y);
        x = y;
    }
    ring
}

// A ring of a network that is not chordal.
pub(crate) fn find_ring(network: &Network, marks: &mut [u8]) -> ArrayVec<u8, 256>
    requires room { 256 ≤ length marks.old }
    requires ringed { Chordal network.now.size (adj network.now.rows) → ⊥ }
    ensures ring { Ring network.now.size (adj network.now.rows) result.items }
    ensures rest { after 256 marks.new ≡ after 256 marks.old }
{
    let Some((v, a, b)) = missing_pair(network) else {
        unreachable()
    };
    let Some(front) = marks.first_chunk_mut::<256>() else {
        unreachable()
    };
    let mut within = network.stations().difference(network.neighbours(v));
    within.remove(v);
    within.insert(a);
    let d = mark_layers(network, within, a, b, front);
    trace(network, front, v, a, d)
}
