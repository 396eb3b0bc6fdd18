// Sets and rows of sets, by the lists of their members.
use sets::{Rows, StationSet};

// The set of the members.
pub(crate) fn set_of(members: &[u8]) -> StationSet {
    let mut set = StationSet::empty();
    for i in members {
        set.insert(*i);
    }
    set
}

// The set holds the members and nothing else.
pub(crate) fn holds(set: StationSet, members: &[u8]) -> bool {
    (0..=255u8).all(|i| set.contains(i) == members.contains(&i))
}

// The first four rows hold the members, and no other row has any.
pub(crate) fn rows_hold(rows: &Rows, four: [&[u8]; 4]) -> bool {
    let (first, others) = rows.split_at(4);
    first
        .iter()
        .zip(four.iter())
        .all(|(set, members)| holds(*set, members))
        && others.iter().all(|set| set.len() == 0)
}
