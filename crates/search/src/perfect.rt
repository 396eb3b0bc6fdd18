// Whether an order is perfect.
ghost use Rattle.std.specs.Prelude.{◌≡◌, true, ◌↔◌};
ghost use Rattle.graph.specs.Graphs.{Order, Perfect};
ghost use Rattle.sets.specs.Sets.{has};
ghost use Rattle.sets.specs.Rows.{adj};
ghost use Rattle.search.specs.Cliques.{Clique, Joined};

use crate::network::Network;
use sets::StationSet;

// Whether a is a neighbour of every other member.
fn is_joined(network: &Network, members: StationSet, a: u8) -> bool
    ensures { (result ≡ true) ↔ Joined (adj network.now.rows) (has members) a }
{
    let mut apart = members.difference(network.neighbours(a));
    apart.remove(a);
    apart.is_empty()
}

// Whether the members are pairwise neighbours.
fn is_clique(network: &Network, members: StationSet) -> bool
    ensures { (result ≡ true) ↔ Clique (adj network.now.rows) (has members) }
{
    members.into_iter().all(|a| is_joined(network, members, a))
}

// Whether the later neighbours of each station are pairwise neighbours.
pub(crate) fn is_perfect(network: &Network, order: &[u8]) -> bool
    requires { Order network.now.size order.now }
    ensures { (result ≡ true) ↔ Perfect network.now.size (adj network.now.rows) order.now }
{
    let mut later = StationSet::empty();
    for &v in order.iter().rev() {
        if !is_clique(network, network.neighbours(v).intersection(later)) {
            return false;
        }
        later.insert(v);
    }
    true
}
