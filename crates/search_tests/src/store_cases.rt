// Search and judge read the store and leave it alone; fill stands as ties do.
use crate::kinds::{all_say, orders};
use crate::networks::{SQUARE, lay_pairs, make_tied};
use crate::plain::all;
use search::{Label, ListLabel, Verdict};
use store::{Matrix, Store};

// The pairs of a network: its ties and its fill.
#[derive(Clone, Copy)]
struct Pairs<'a> {
    ties: &'a [(usize, usize)],
    fill: &'a [(usize, usize)],
}

impl Pairs<'_> {
    // The pair has mark 1 where it is one of the ties, and mark 2 where it is one of the fill.
    fn mark(&self, matrix: &Matrix<'_>, pair: (usize, usize)) -> bool {
        let mark = matrix.mark(pair.0, pair.1);
        (mark == 1) == is_listed(self.ties, pair) && (mark == 2) == is_listed(self.fill, pair)
    }

    // Each pair of the first eight stations, of which some may be outside, has its mark.
    fn mark_all(&self, matrix: &Matrix<'_>) -> bool {
        (0..8).all(|u| (0..8).all(|v| self.mark(matrix, (u, v))))
    }
}

// The table has the pair, one way round or the other.
fn is_listed(pairs: &[(usize, usize)], (u, v): (usize, usize)) -> bool {
    pairs.contains(&(u, v)) || pairs.contains(&(v, u))
}

// The network with ties and fill is judged so, by each kind, and its marks, its size and its room stay.
fn stays_with(
    n: usize,
    ties: &[(usize, usize)],
    fill: &[(usize, usize)],
    expected: Verdict,
) -> bool {
    let mut area = [0; 8192];
    let mut matrix = Matrix::over(&mut area);
    let made = make_tied(&mut matrix, n, ties).is_ok() && lay_pairs(&mut matrix, fill).is_ok();
    let pairs = Pairs { ties, fill };
    let room = matrix.room();
    let before = pairs.mark_all(&matrix);
    let said = all_say(&matrix, expected);
    let same = (matrix.size() == n) & (matrix.room() == room);
    made & before & said & same & pairs.mark_all(&matrix)
}

// A ring of ties and fill is a ring, and one of fill alone.
#[test]
fn fill_makes_a_ring(rt: HostRuntime) {
    let ties = [(0, 1), (1, 2), (4, 5)];
    let fill = [(0, 1), (1, 2), (2, 3), (3, 4), (4, 0)];
    assert!(rt; stays_with(7, &ties, &[(3, 2), (0, 3)], Verdict::Ring(4)));
    assert!(rt; stays_with(6, &[], &fill, Verdict::Ring(5)));
}

// Fill across a ring makes the network chordal.
#[test]
fn fill_ends_a_ring(rt: HostRuntime) {
    let five = [(0, 1), (1, 2), (2, 3), (3, 4), (4, 0)];
    assert!(rt; stays_with(5, &SQUARE, &[(2, 0)], Verdict::Chordal));
    assert!(rt; stays_with(5, &five, &[(0, 2)], Verdict::Ring(4)));
    assert!(rt; stays_with(5, &five, &[(0, 2), (0, 3)], Verdict::Chordal));
}

// The order of a square whose diagonal is fill.
#[test]
fn fill_counts_in_the_order(rt: HostRuntime) {
    let mut area = [0; 8192];
    let mut matrix = Matrix::over(&mut area);
    let made = make_tied(&mut matrix, 4, &SQUARE).is_ok();
    let laid = lay_pairs(&mut matrix, &[(1, 3)]).is_ok();
    let labels = &mut [ListLabel::BLANK; 256];
    assert!(rt; made & laid);
    assert!(rt; orders(&matrix, labels, Verdict::Chordal, &[2, 3, 1, 0]));
}

// No byte of the area changes.
#[test]
fn area_stays(rt: HostRuntime) {
    let mut area = [165; 8200];
    let mut matrix = Matrix::over(&mut area);
    let made = matrix.set_size(9).is_ok();
    let labels = &mut [ListLabel::BLANK; 256];
    let ordered = orders(
        &matrix,
        labels,
        Verdict::Chordal,
        &[6, 4, 3, 1, 8, 7, 5, 2, 0],
    );
    let judged = all_say(&matrix, Verdict::Chordal);
    assert!(rt; made & ordered & judged);
    assert!(rt; all(&area, 165));
}
