// The exact orders of small networks, which search and judge share.
use crate::inclusion_label::InclusionLabel;
use crate::kinds::orders;
use crate::networks::{SQUARE, make_tied, tie_path};
use search::{CountLabel, Label, ListLabel, Verdict};
use std::array;
use store::Matrix;

// By these labels, the verdict and the order of n stations with the ties.
fn order_is<L: Label + Copy>(
    labels: &mut [L],
    n: usize,
    ties: &[(usize, usize)],
    expected: Verdict,
    order: &[u8],
) -> bool {
    let mut area = [0; 8192];
    let mut matrix = Matrix::over(&mut area);
    make_tied(&mut matrix, n, ties).is_ok() && orders(&matrix, labels, expected, order)
}

// The same by every kind, for a chordal network.
fn every_order_is(n: usize, ties: &[(usize, usize)], order: &[u8]) -> bool {
    let chordal = Verdict::Chordal;
    order_is(&mut [CountLabel::BLANK; 256], n, ties, chordal, order)
        && order_is(&mut [ListLabel::BLANK; 256], n, ties, chordal, order)
        && order_is(&mut [InclusionLabel::BLANK; 256], n, ties, chordal, order)
}

// One and two stations.
#[test]
fn orders_one_and_two_stations(rt: HostRuntime) {
    assert!(rt; every_order_is(1, &[], &[0]));
    assert!(rt; every_order_is(2, &[], &[1, 0]));
    assert!(rt; every_order_is(2, &[(0, 1)], &[1, 0]));
}

// Four stations: a star from its centre and from an end, a path from an end and from its inside, a square with a diagonal.
#[test]
fn orders_four_stations(rt: HostRuntime) {
    let diagonal = [(0, 1), (1, 2), (2, 3), (3, 0), (1, 3)];
    assert!(rt; every_order_is(4, &[(0, 1), (0, 2), (0, 3)], &[3, 2, 1, 0]));
    assert!(rt; every_order_is(4, &[(3, 0), (3, 1), (3, 2)], &[2, 1, 3, 0]));
    assert!(rt; every_order_is(4, &[(0, 1), (1, 2), (2, 3)], &[3, 2, 1, 0]));
    assert!(rt; every_order_is(4, &[(2, 0), (0, 3), (3, 1)], &[1, 3, 2, 0]));
    assert!(rt; every_order_is(4, &diagonal, &[2, 3, 1, 0]));
}

// A chordal network that each kind orders in another way.
#[test]
fn orders_by_the_kind_of_label(rt: HostRuntime) {
    let ties = [(0, 1), (0, 3), (1, 2), (1, 4), (2, 4)];
    let counts = &mut [CountLabel::BLANK; 256];
    let lists = &mut [ListLabel::BLANK; 256];
    let inclusions = &mut [InclusionLabel::BLANK; 256];
    assert!(rt; order_is(counts, 5, &ties, Verdict::Chordal, &[3, 4, 2, 1, 0]));
    assert!(rt; order_is(lists, 5, &ties, Verdict::Chordal, &[4, 2, 3, 1, 0]));
    assert!(rt; order_is(inclusions, 5, &ties, Verdict::Chordal, &[4, 3, 2, 1, 0]));
}

// The search orders a square too, which is not chordal.
#[test]
fn orders_a_square(rt: HostRuntime) {
    let counts = &mut [CountLabel::BLANK; 256];
    let lists = &mut [ListLabel::BLANK; 256];
    let inclusions = &mut [InclusionLabel::BLANK; 256];
    assert!(rt; order_is(counts, 4, &SQUARE, Verdict::Ring(4), &[3, 2, 1, 0]));
    assert!(rt; order_is(lists, 4, &SQUARE, Verdict::Ring(4), &[2, 3, 1, 0]));
    assert!(rt; order_is(inclusions, 4, &SQUARE, Verdict::Ring(4), &[3, 2, 1, 0]));
}

// The stations from 255 down to 0.
fn falling() -> [u8; 256] {
    array::from_fn(|place| (255 - place) as u8)
}

// By these labels, a path of 256 stations is placed from 0 on.
fn orders_a_path<L: Label + Copy>(labels: &mut [L]) -> bool {
    let mut area = [0; 8192];
    let mut matrix = Matrix::over(&mut area);
    let tied = matrix.make(256).is_ok() && tie_path(&mut matrix, 0, 255).is_ok();
    tied & orders(&matrix, labels, Verdict::Chordal, &falling())
}

// 256 stations, without ties and in a path, are placed by their numbers.
#[test]
fn orders_256_stations(rt: HostRuntime) {
    assert!(rt; every_order_is(256, &[], &falling()));
    assert!(rt; orders_a_path(&mut [CountLabel::BLANK; 256]));
    assert!(rt; orders_a_path(&mut [ListLabel::BLANK; 256]));
    assert!(rt; orders_a_path(&mut [InclusionLabel::BLANK; 256]));
}
