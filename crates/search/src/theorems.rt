// What holds of the search's orders, whatever the kind of label.
ghost use Rattle.graph.specs.Theorems.{SearchedMade, SearchedUnique, SearchPerfect};

use crate::label::Label;

// Every graph has an order of the search, and no other; if the graph is chordal, the order is perfect.
pub fn search_orders<L: Label>()
    ensures made { SearchedMade L.BLANK L.raised L.less }
    ensures unique { SearchedUnique L.BLANK L.raised L.less }
    ensures perfect { SearchPerfect L.BLANK L.raised L.less }
{}
