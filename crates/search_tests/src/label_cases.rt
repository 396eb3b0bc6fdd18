// How labels compare, and what a call leaves in a row of labels.
use crate::inclusion_label::InclusionLabel;
use crate::networks::{SQUARE, make_tied};
use crate::plain::patterned;
use search::{Comparison, CountLabel, Label, ListLabel, judge, search};
use store::Matrix;

// The label raised by each position in turn.
pub(crate) fn raised<L: Label + Copy>(label: L, positions: &[u8]) -> L {
    positions
        .iter()
        .fold(label, |last, position| last.raise(*position))
}

// The label raised so many times.
fn raised_times<L: Label + Copy>(label: L, times: usize) -> L {
    (0..times).fold(label, |last, _| last.raise(1))
}

// The first label is less than the second, and so the second greater.
const LESS: (Comparison, Comparison) = (Comparison::Less, Comparison::Greater);

// Neither label is less than the other.
const NEITHER: (Comparison, Comparison) = (Comparison::Neither, Comparison::Neither);

// The first label compares with the second, and the second with the first, as expected.
fn compares<L: Label + Copy>(a: L, b: L, (there, back): (Comparison, Comparison)) -> bool {
    a.compare(&b) == there && b.compare(&a) == back
}

// The two are the same label, where neither is raised by 255: once raised by it, the one exceeds the other. No `==`: a kind of label
// need not have one.
fn is_same<L: Label + Copy>(a: &L, b: &L) -> bool {
    let more = a.raise(255);
    a.compare(b) == Comparison::Neither && more.compare(b) == Comparison::Greater
}

// The last label of the station: blank, and raised by the positions that the table gives for it.
fn last_label<L: Label + Copy>(raisings: &[(usize, u8)], station: usize) -> L {
    raisings
        .iter()
        .filter(|raising| raising.0 == station)
        .fold(L::new_blank(), |last, raising| last.raise(raising.1))
}

// The row is as a call must leave it: the first n labels are the last ones by the table, and the others the old one.
pub(crate) fn is_row<L: Label + Copy>(
    row: &[L],
    n: usize,
    raisings: &[(usize, u8)],
    old: L,
) -> bool {
    row.iter().enumerate().all(|(k, label)| {
        let expected = if k < n { last_label(raisings, k) } else { old };
        is_same(label, &expected)
    })
}

// Search and judge of n stations with the ties leave such a row, over labels that were raised before.
fn leaves<L: Label + Copy>(
    row: &mut [L],
    n: usize,
    ties: &[(usize, usize)],
    raisings: &[(usize, u8)],
) -> bool {
    let mut area = [0; 8192];
    let mut matrix = Matrix::over(&mut area);
    let made = make_tied(&mut matrix, n, ties).is_ok();
    let old = raised(L::new_blank(), &[200, 100, 2]);
    let mut strip = patterned::<300>();
    row.fill_with(|| old);
    let found = search(&matrix, row, &mut strip).is_ok() && is_row(row, n, raisings, old);
    row.fill_with(|| old);
    let told = judge(&matrix, row, &mut strip, &mut [0; 256]).is_ok();
    made & found & told & is_row(row, n, raisings, old)
}

// Counts compare by their number of raisings, and stay at 65,535.
#[test]
fn counts_compare(rt: HostRuntime) {
    let blank = CountLabel::BLANK;
    let one = raised(blank, &[3]);
    let most = raised_times(blank, 65535);
    assert!(rt; compares(blank, CountLabel::new_blank(), NEITHER));
    assert!(rt; compares(one, raised(blank, &[0, 1]), LESS));
    assert!(rt; compares(one, raised(blank, &[255]), NEITHER));
    assert!(rt; compares(raised_times(blank, 65534), most, LESS));
    assert!(rt; compares(most.raise(0), most, NEITHER));
}

// Lists compare by the highest position in which they differ.
#[test]
fn lists_compare(rt: HostRuntime) {
    let blank = ListLabel::BLANK;
    let high = raised(blank, &[64]);
    let low = raised(blank, &[63, 62, 0]);
    assert!(rt; compares(blank, ListLabel::new_blank(), NEITHER));
    assert!(rt; compares(low, high, LESS));
    assert!(rt; compares(high, raised(blank, &[64, 0]), LESS));
    assert!(rt; compares(raised(blank, &[0, 62, 63, 0]), low, NEITHER));
}

// Inclusions compare only where one holds all that the other holds.
#[test]
fn inclusions_compare(rt: HostRuntime) {
    let blank = InclusionLabel::BLANK;
    let high = raised(blank, &[255]);
    let low = raised(blank, &[63, 64]);
    let both = raised(blank, &[255, 64, 63]);
    assert!(rt; compares(blank, InclusionLabel::new_blank(), NEITHER));
    assert!(rt; compares(blank, high, LESS));
    assert!(rt; compares(low, high, NEITHER));
    assert!(rt; compares(low, both, LESS));
    assert!(rt; compares(both, raised(low, &[1]), NEITHER));
}

// The last labels of one station and of a path of three, by each kind.
#[test]
fn leaves_the_labels_of_a_path(rt: HostRuntime) {
    let ties = [(0, 1), (1, 2)];
    let raisings = [(1, 2), (2, 1)];
    let lists = &mut [ListLabel::BLANK; 300];
    assert!(rt; leaves(&mut [CountLabel::BLANK; 300], 3, &ties, &raisings));
    assert!(rt; leaves(lists, 3, &ties, &raisings));
    assert!(rt; leaves(&mut [InclusionLabel::BLANK; 300], 3, &ties, &raisings));
    assert!(rt; leaves(lists, 1, &[], &[]));
}

// The last labels of a square, where the kinds raise other stations.
#[test]
fn leaves_the_labels_of_a_square(rt: HostRuntime) {
    let counts = &mut [CountLabel::BLANK; 300];
    let lists = &mut [ListLabel::BLANK; 300];
    let inclusions = &mut [InclusionLabel::BLANK; 300];
    assert!(rt; leaves(counts, 4, &SQUARE, &[(1, 3), (2, 2), (3, 3), (3, 1)]));
    assert!(rt; leaves(lists, 4, &SQUARE, &[(1, 3), (2, 2), (2, 1), (3, 3)]));
    assert!(rt; leaves(inclusions, 4, &SQUARE, &[(1, 3), (2, 2), (3, 3), (3, 1)]));
}
