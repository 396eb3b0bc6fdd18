// Sets of stations at the ends of their words.
use crate::sets_of::{holds, set_of};
use sets::StationSet;

// The first and the last station of each word.
const ENDS: [u8; 8] = [0, 63, 64, 127, 128, 191, 192, 255];

// One member alone, and again without it.
fn comes_and_goes(i: u8) -> bool {
    let mut set = StationSet::EMPTY;
    set.insert(i);
    let one = holds(set, &[i]) & (set.len() == 1) & (set.first() == Some(i)) & !set.is_empty();
    set.insert(i);
    let again = holds(set, &[i]) & (set.len() == 1);
    set.remove(i);
    one & again & holds(set, &[]) & set.is_empty() & (set.first() == None)
}

// All ends but one, and again with it.
fn goes_and_comes(i: u8, others: &[u8]) -> bool {
    let mut set = set_of(&ENDS);
    set.remove(i);
    let without = holds(set, others) & (set.len() == 7);
    set.remove(i);
    let again = holds(set, others);
    set.insert(i);
    without & again & holds(set, &ENDS) & (set.len() == 8)
}

// What two sets make together, and what the first has alone.
fn combines(a: &[u8], b: &[u8], either: &[u8], both: &[u8], alone: &[u8]) -> bool {
    let x = set_of(a);
    let y = set_of(b);
    let joined = holds(x.union(y), either) & holds(y.union(x), either);
    let shared = holds(x.intersection(y), both) & holds(y.intersection(x), both);
    joined & shared & holds(x.difference(y), alone)
}

// The first set is less than the second, and not the other way round.
fn is_less(a: &[u8], b: &[u8]) -> bool {
    let x = set_of(a);
    let y = set_of(b);
    x.less(y) & !y.less(x) & !x.less(x) & !y.less(y)
}

// The set of the stations below n holds so many, from 0 on.
fn is_below(n: usize, count: usize) -> bool {
    let set = StationSet::below(n);
    (0..=255u8).all(|i| set.contains(i) == (usize::from(i) < count)) && set.len() == count
}

// A member comes and goes, alone.
#[test]
fn inserts_and_removes(rt: HostRuntime) {
    for i in ENDS {
        assert!(rt; comes_and_goes(i));
    }
    assert!(rt; holds(StationSet::EMPTY, &[]));
    assert!(rt; holds(StationSet::empty(), &[]));
}

// A member goes and comes, among others.
#[test]
fn removes_and_inserts(rt: HostRuntime) {
    assert!(rt; goes_and_comes(0, &[63, 64, 127, 128, 191, 192, 255]));
    assert!(rt; goes_and_comes(64, &[0, 63, 127, 128, 191, 192, 255]));
    assert!(rt; goes_and_comes(191, &[0, 63, 64, 127, 128, 192, 255]));
    assert!(rt; goes_and_comes(255, &[0, 63, 64, 127, 128, 191, 192]));
}

// Union, intersection and difference.
#[test]
fn combines_sets(rt: HostRuntime) {
    let mixed = combines(
        &[0, 63, 128, 191],
        &[63, 64, 191, 255],
        &[0, 63, 64, 128, 191, 255],
        &[63, 191],
        &[0, 128],
    );
    let apart = combines(
        &[127, 192],
        &[64, 255],
        &[64, 127, 192, 255],
        &[],
        &[127, 192],
    );
    let nothing = combines(&[], &ENDS, &ENDS, &[], &[]);
    assert!(rt; mixed & apart & nothing & combines(&ENDS, &ENDS, &ENDS, &ENDS, &[]));
}

// The set has this lowest member and so many members.
fn starts(members: &[u8], first: u8, count: usize) -> bool {
    let set = set_of(members);
    (set.first() == Some(first)) & (set.len() == count)
}

// The lowest member and the number of members.
#[test]
fn finds_first_and_length(rt: HostRuntime) {
    assert!(rt; starts(&ENDS, 0, 8));
    assert!(rt; starts(&[255, 127, 63], 63, 3));
    assert!(rt; starts(&[127, 64, 255], 64, 3));
    assert!(rt; starts(&[192, 191], 191, 2));
    assert!(rt; starts(&[255, 192], 192, 2));
    assert!(rt; starts(&[255], 255, 1));
    assert!(rt; starts(&[128, 255, 128], 128, 2));
    assert_eq!(rt; StationSet::EMPTY.len(), 0);
}

// Of two sets, the one with the highest station in which they differ is greater.
#[test]
fn compares_sets(rt: HostRuntime) {
    assert!(rt; is_less(&[], &[0]));
    assert!(rt; is_less(&[0], &[63]));
    assert!(rt; is_less(&[0, 63], &[64]));
    assert!(rt; is_less(&[127], &[128]));
    assert!(rt; is_less(&[0, 63, 64, 127, 128], &[191]));
    assert!(rt; is_less(&[191], &[192]));
    assert!(rt; is_less(&[0, 63, 64, 127, 128, 191, 192], &[255]));
    assert!(rt; is_less(&[255, 0], &[255, 63]));
    assert!(rt; is_less(&[255, 127, 63], &[255, 127, 64]));
}

// The stations below a number.
#[test]
fn holds_the_stations_below(rt: HostRuntime) {
    let table = [
        (0, 0),
        (1, 1),
        (63, 63),
        (64, 64),
        (65, 65),
        (128, 128),
        (193, 193),
        (255, 255),
        (256, 256),
        (1000, 256),
        (18446744073709551615, 256),
    ];
    for (n, count) in table {
        assert!(rt; is_below(n, count));
    }
}
