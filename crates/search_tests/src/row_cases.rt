// Rows of sets: the square of stations 0, 1, 2 and 3, and what is read off it.
use crate::networks::{lay_pairs, make_tied};
use crate::sets_of::{holds, rows_hold, set_of};
use search::rows_of;
use sets::rows::{clear, note_gaps, part_of, row, touching, widen};
use sets::{Rows, StationSet};
use store::Matrix;

// The rows of the square.
fn square() -> Rows {
    let mut rows = [StationSet::EMPTY; 256];
    widen(&mut rows, 0, set_of(&[1]));
    widen(&mut rows, 0, set_of(&[3]));
    widen(&mut rows, 1, set_of(&[0, 2]));
    widen(&mut rows, 2, set_of(&[1, 3]));
    widen(&mut rows, 3, set_of(&[2, 0]));
    rows
}

// Rows are widened and cleared.
#[test]
fn widens_and_clears(rt: HostRuntime) {
    let mut rows = square();
    let four = rows_hold(&rows, [&[1, 3], &[0, 2], &[1, 3], &[0, 2]]);
    widen(&mut rows, 255, set_of(&[0, 255]));
    let last = holds(row(&rows, 255), &[0, 255])
        & holds(row(&rows, 254), &[])
        & holds(row(&rows, 3), &[0, 2]);
    clear(&mut rows);
    assert!(rt; four & last);
    assert!(rt; rows_hold(&rows, [&[], &[], &[], &[]]));
}

// The stations that touch a set.
#[test]
fn finds_what_touches(rt: HostRuntime) {
    let rows = square();
    assert!(rt; holds(touching(&rows, set_of(&[0])), &[1, 3]));
    assert!(rt; holds(touching(&rows, set_of(&[0, 2])), &[1, 3]));
    assert!(rt; holds(touching(&rows, set_of(&[0, 1])), &[0, 1, 2, 3]));
    assert!(rt; holds(touching(&rows, StationSet::EMPTY), &[]));
    assert!(rt; holds(touching(&rows, set_of(&[4, 255])), &[]));
}

// The part of a station inside a set.
#[test]
fn finds_parts(rt: HostRuntime) {
    let rows = square();
    let everywhere = StationSet::below(256);
    assert!(rt; holds(part_of(&rows, everywhere, 2), &[0, 1, 2, 3]));
    assert!(rt; holds(part_of(&rows, set_of(&[0, 1, 2, 255]), 0), &[0, 1, 2]));
    assert!(rt; holds(part_of(&rows, set_of(&[0, 2]), 0), &[0]));
    assert!(rt; holds(part_of(&rows, everywhere, 255), &[255]));
    assert!(rt; holds(part_of(&rows, set_of(&[0, 1, 2]), 3), &[]));
}

// The pairs of a border that are not neighbours.
#[test]
fn notes_gaps(rt: HostRuntime) {
    let rows = square();
    let mut noted = [StationSet::EMPTY; 256];
    note_gaps(&rows, set_of(&[0, 1]), &mut noted);
    let none = rows_hold(&noted, [&[], &[], &[], &[]]);
    note_gaps(&rows, set_of(&[1, 3]), &mut noted);
    let one = rows_hold(&noted, [&[], &[3], &[], &[1]]);
    note_gaps(&rows, set_of(&[0, 1, 2]), &mut noted);
    let two = rows_hold(&noted, [&[2], &[3], &[0], &[1]]);
    note_gaps(&rows, set_of(&[0, 1, 2, 3]), &mut noted);
    assert!(rt; none & one & two & rows_hold(&noted, [&[2], &[3], &[0], &[1]]));
}

// The rows of a store hold its ties and its fill.
#[test]
fn reads_the_rows_of_a_store(rt: HostRuntime) {
    let mut area = [255; 8192];
    let mut matrix = Matrix::over(&mut area);
    let made = make_tied(&mut matrix, 4, &[(0, 1), (2, 3)]).is_ok();
    let laid = lay_pairs(&mut matrix, &[(2, 1), (0, 3)]).is_ok();
    assert!(rt; made & laid);
    assert!(rt; rows_hold(&rows_of(&matrix), [&[1, 3], &[0, 2], &[1, 3], &[0, 2]]));
}
