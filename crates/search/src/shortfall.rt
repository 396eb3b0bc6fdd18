// The shortfall of a station: the pairs that the borders of its parts lack.
ghost use Rattle.std.specs.Prelude.{ℕ, ◌↔◌};
ghost use Rattle.graph.specs.Graphs.{Edge, Shortfall};
ghost use Rattle.sets.specs.Rows.{adj};

use crate::network::Network;
use sets::Rows;
use sets::rows::clear;

// Notes the shortfall of v in `missing`, and nothing else.
pub(crate) fn note_shortfall(network: &Network, v: u8, missing: &mut Rows)
    ensures { (a b : ℕ) → Edge (adj missing.new) a b ↔ Shortfall (adj network.now.rows) v a b }
{
    clear(missing);
    let near = network.neighbours(v);
    let mut outside = network.stations().difference(near);
    outside.remove(v);
    let mut left = outside;
    // A work list: a part is taken away whole, so no iterator over `outside` would do.
    while let Some(c) = left.first() {
        let part = network.part_of(outside, c);
        left = left.difference(part);
        network.note_gaps(network.touching(part).intersection(near), missing);
    }
}
