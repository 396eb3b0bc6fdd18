// Strips, rows and marks that are too short are refused by 11, and nothing changes then.
ghost use Rattle.std.specs.Prelude.{◌≤◌};

use crate::label_cases::{is_row, raised};
use crate::networks::{SQUARE, make_tied};
use crate::plain::{is_patterned, patterned};
use search::{Label, ListLabel, judge, search};
use store::{Matrix, Refusal};

// The search with strip and row of these lengths is refused, and both stay.
// Numbers up to 300: tried with const parameters, and that arrays of any length fit in memory did not close.
fn search_stops(matrix: &Matrix<'_>, strip_length: usize, row_length: usize) -> bool
    requires { (strip_length ≤ 300) × (row_length ≤ 300) }
{
    let label = raised(ListLabel::BLANK, &[200, 100]);
    let mut row = [label; 300];
    let mut strip = patterned::<300>();
    let answer = search(matrix, &mut row[0..row_length], &mut strip[0..strip_length]);
    answer == Err(Refusal::StripTooShort) && is_patterned(&strip, 0) && is_row(&row, 0, &[], label)
}

// The judge with strip, row and marks of these lengths is refused, and all stay.
// Numbers up to 300: tried with const parameters, and that arrays of any length fit in memory did not close.
fn judge_stops(
    matrix: &Matrix<'_>,
    strip_length: usize,
    row_length: usize,
    marks_length: usize,
) -> bool
    requires { (strip_length ≤ 300) × ((row_length ≤ 300) × (marks_length ≤ 300)) }
{
    let label = raised(ListLabel::BLANK, &[200, 100]);
    let mut row = [label; 300];
    let mut strip = patterned::<300>();
    let mut marks = patterned::<300>();
    let answer = judge(
        matrix,
        &mut row[0..row_length],
        &mut strip[0..strip_length],
        &mut marks[0..marks_length],
    );
    let kept = is_patterned(&strip, 0) & is_patterned(&marks, 0) & is_row(&row, 0, &[], label);
    (answer == Err(Refusal::StripTooShort)) & kept
}

// A short strip, a short row, or both.
fn searches_stop(matrix: &Matrix<'_>) -> bool {
    let strip = search_stops(matrix, 255, 256) & search_stops(matrix, 0, 300);
    let row = search_stops(matrix, 256, 255) & search_stops(matrix, 300, 0);
    strip & row & search_stops(matrix, 255, 255) & search_stops(matrix, 0, 0)
}

// A short strip, a short row, short marks, or all.
fn judges_stop(matrix: &Matrix<'_>) -> bool {
    let strip = judge_stops(matrix, 255, 256, 256) & judge_stops(matrix, 0, 300, 300);
    let row = judge_stops(matrix, 256, 255, 256) & judge_stops(matrix, 300, 0, 300);
    let marks = judge_stops(matrix, 256, 256, 255) & judge_stops(matrix, 300, 300, 0);
    let all = judge_stops(matrix, 255, 255, 255) & judge_stops(matrix, 0, 0, 0);
    strip & row & marks & all
}

// Search and judge of four stations with the ties are refused.
fn both_stop(ties: &[(usize, usize)]) -> bool {
    let mut area = [0; 8192];
    let mut matrix = Matrix::over(&mut area);
    let made = make_tied(&mut matrix, 4, ties).is_ok();
    made & searches_stop(&matrix) & judges_stop(&matrix)
}

// Short strips, rows and marks are refused, for a path and for a square.
#[test]
fn refuses_short_strips(rt: HostRuntime) {
    assert_eq!(rt; Refusal::StripTooShort.number(), 11);
    assert!(rt; both_stop(&[(0, 1), (1, 2), (2, 3)]));
    assert!(rt; both_stop(&SQUARE));
}

// 256 entries each are enough.
#[test]
fn accepts_the_shortest_strips(rt: HostRuntime) {
    let mut area = [0; 8192];
    let mut matrix = Matrix::over(&mut area);
    let made = make_tied(&mut matrix, 256, &[(0, 255)]).is_ok();
    let mut row = [ListLabel::BLANK; 256];
    let found = search(&matrix, &mut row, &mut [0; 256]).is_ok();
    let judged = judge(&matrix, &mut row, &mut [0; 256], &mut [0; 256]).is_ok();
    assert!(rt; made & found & judged);
}
