// What the judge says of networks, by all three kinds of label.
use crate::inclusion_label::InclusionLabel;
use crate::kinds::{all_say, says};
use crate::networks::{SQUARE, make_tied, tie_path, tie_ring, tie_star};
use search::{CountLabel, Label, ListLabel, Verdict};
use store::Matrix;

// By all kinds of label the judge says so of n stations with the ties.
fn all_say_of(n: usize, ties: &[(usize, usize)], expected: Verdict) -> bool {
    let mut area = [0; 8192];
    let mut matrix = Matrix::over(&mut area);
    make_tied(&mut matrix, n, ties).is_ok() && all_say(&matrix, expected)
}

// A ring of the length is found by these labels.
fn finds_ring<L: Label + Copy>(labels: &mut [L], length: usize) -> bool {
    let mut area = [0; 8192];
    let mut matrix = Matrix::over(&mut area);
    length >= 4
        && matrix.make(length).is_ok()
        && tie_ring(&mut matrix, 0, length - 1).is_ok()
        && says(&matrix, labels, Verdict::Ring(length))
}

// Networks of one to three stations have no ring.
#[test]
fn small_networks_are_chordal(rt: HostRuntime) {
    assert!(rt; all_say_of(1, &[], Verdict::Chordal));
    assert!(rt; all_say_of(2, &[], Verdict::Chordal));
    assert!(rt; all_say_of(2, &[(0, 1)], Verdict::Chordal));
    assert!(rt; all_say_of(3, &[(0, 1), (1, 2)], Verdict::Chordal));
    assert!(rt; all_say_of(3, &[(0, 1), (1, 2), (2, 0)], Verdict::Chordal));
}

// Four stations: only the square has a ring.
#[test]
fn finds_a_square(rt: HostRuntime) {
    let crossed = [(0, 2), (2, 1), (1, 3), (3, 0)];
    assert!(rt; all_say_of(4, &SQUARE, Verdict::Ring(4)));
    assert!(rt; all_say_of(4, &crossed, Verdict::Ring(4)));
}

// The path, the star, the square with a diagonal and the complete network of four stations have none.
#[test]
fn four_stations_without_a_ring(rt: HostRuntime) {
    let diagonal = [(0, 1), (1, 2), (2, 3), (3, 0), (1, 3)];
    let complete = [(0, 1), (0, 2), (0, 3), (1, 2), (1, 3), (2, 3)];
    assert!(rt; all_say_of(4, &[(0, 1), (1, 2), (2, 3)], Verdict::Chordal));
    assert!(rt; all_say_of(4, &[(3, 0), (3, 1), (3, 2)], Verdict::Chordal));
    assert!(rt; all_say_of(4, &diagonal, Verdict::Chordal));
    assert!(rt; all_say_of(4, &complete, Verdict::Chordal));
}

// By all kinds a path and then a star of n stations on the same matrix have no ring.
fn path_and_star_are_chordal(n: usize) -> bool {
    let mut area = [0; 8192];
    let mut matrix = Matrix::over(&mut area);
    let path = matrix.make(n).is_ok() && tie_path(&mut matrix, 0, n.saturating_sub(1)).is_ok();
    let said = all_say(&matrix, Verdict::Chordal);
    let star = matrix.make(n).is_ok() && tie_star(&mut matrix, 0, 1, n).is_ok();
    path & said & star & all_say(&matrix, Verdict::Chordal)
}

// 256 stations without ties, in a path and in stars from the first and the last have no ring.
#[test]
fn large_networks_are_chordal(rt: HostRuntime) {
    let mut area = [0; 8192];
    let mut matrix = Matrix::over(&mut area);
    let made = matrix.make(256).is_ok() && tie_star(&mut matrix, 255, 0, 255).is_ok();
    assert!(rt; all_say_of(256, &[], Verdict::Chordal));
    assert!(rt; path_and_star_are_chordal(256));
    assert!(rt; made && all_say(&matrix, Verdict::Chordal));
}

// A ring of every length from 4 to 256 is found by lists.
#[test]
fn finds_rings_of_every_length(rt: HostRuntime) {
    for length in 4..257 {
        assert!(rt; finds_ring(&mut [ListLabel::BLANK; 256], length));
    }
}

// Short and long rings are found by all kinds.
#[test]
fn finds_rings_by_all_kinds(rt: HostRuntime) {
    for length in [4, 5, 6, 100, 255, 256] {
        assert!(rt; finds_ring(&mut [CountLabel::BLANK; 256], length));
        assert!(rt; finds_ring(&mut [ListLabel::BLANK; 256], length));
        assert!(rt; finds_ring(&mut [InclusionLabel::BLANK; 256], length));
    }
}

// A ring with a tail after it, and one with a tail before it.
#[test]
fn finds_a_ring_in_a_larger_network(rt: HostRuntime) {
    let tail = [
        (0, 1),
        (1, 2),
        (2, 3),
        (3, 4),
        (4, 0),
        (4, 5),
        (5, 6),
        (6, 7),
    ];
    let before = [
        (0, 1),
        (1, 2),
        (2, 3),
        (3, 4),
        (4, 5),
        (5, 6),
        (6, 7),
        (7, 2),
    ];
    assert!(rt; all_say_of(8, &tail, Verdict::Ring(5)));
    assert!(rt; all_say_of(8, &before, Verdict::Ring(6)));
}

// Two rings of one length in different parts of 256 stations.
#[test]
fn finds_one_ring_of_two(rt: HostRuntime) {
    let mut area = [0; 8192];
    let mut matrix = Matrix::over(&mut area);
    let made = matrix.make(256).is_ok() && tie_ring(&mut matrix, 151, 255).is_ok();
    assert!(rt; made && all_say(&matrix, Verdict::Ring(105)));
    let tied = tie_ring(&mut matrix, 20, 124).is_ok();
    assert!(rt; tied && all_say(&matrix, Verdict::Ring(105)));
}

// Networks in two parts: two triangles, and a triangle and a square on either side.
#[test]
fn judges_networks_in_parts(rt: HostRuntime) {
    let triangles = [(0, 1), (1, 2), (2, 0), (3, 4), (4, 5), (5, 3)];
    let square_last = [(0, 1), (1, 2), (2, 0), (3, 4), (4, 5), (5, 6), (6, 3)];
    let square_first = [(0, 1), (1, 2), (2, 3), (3, 0), (4, 5), (5, 6), (6, 4)];
    assert!(rt; all_say_of(6, &triangles, Verdict::Chordal));
    assert!(rt; all_say_of(7, &square_last, Verdict::Ring(4)));
    assert!(rt; all_say_of(7, &square_first, Verdict::Ring(4)));
}
