// Plain checks of what a call leaves: bytes, orders and rings.
use std::array;
use store::{Matrix, Store};

// Every byte is the value.
// The other crate of tests has the same one line: a crate of its own for it would be no plainer.
pub(crate) fn all(bytes: &[u8], value: u8) -> bool {
    bytes.iter().all(|byte| *byte == value)
}

// What stands at the place of a strip before a call.
fn pattern(place: usize) -> u8 {
    (place % 251) as u8 ^ 85
}

// A strip before a call.
pub(crate) fn patterned<const N: usize>() -> [u8; N] {
    array::from_fn(pattern)
}

// From the place on, the bytes are as they were before the call.
pub(crate) fn is_patterned(strip: &[u8], from: usize) -> bool {
    strip
        .iter()
        .enumerate()
        .skip(from)
        .all(|(place, byte)| *byte == pattern(place))
}

// The first 256 bytes are 0, and the others as they were before the call.
pub(crate) fn is_clean(marks: &[u8]) -> bool {
    marks.starts_with(&[0; 256]) && is_patterned(marks, 256)
}

// The strip begins with the entries, and goes on as before the call.
pub(crate) fn begins(strip: &[u8], entries: &[u8]) -> bool {
    strip.starts_with(entries) && is_patterned(strip, entries.len())
}

// The two stations are neighbours.
fn stands(matrix: &Matrix<'_>, a: u8, b: u8) -> bool {
    matrix.mark(a as usize, b as usize) > 0
}

// Each station, as many as there are entries, is one of them, and so comes once.
pub(crate) fn is_order(order: &[u8]) -> bool {
    order.len() <= 256
        && (0..=255u8)
            .take(order.len())
            .all(|station| order.contains(&station))
}

// The later neighbours of each station are neighbours of one another.
pub(crate) fn is_perfect(matrix: &Matrix<'_>, order: &[u8]) -> bool {
    order
        .iter()
        .enumerate()
        .all(|(place, v)| joins_neighbours(matrix, *v, &order[place..]))
}

// The neighbours of v among the later stations are neighbours of one another.
fn joins_neighbours(matrix: &Matrix<'_>, v: u8, later: &[u8]) -> bool {
    later
        .iter()
        .filter(|a| stands(matrix, v, **a))
        .all(|a| is_joined(matrix, v, *a, later))
}

// The other neighbours of v among the later stations are neighbours of a.
fn is_joined(matrix: &Matrix<'_>, v: u8, a: u8, later: &[u8]) -> bool {
    later
        .iter()
        .filter(|b| **b != a && stands(matrix, v, **b))
        .all(|b| stands(matrix, a, *b))
}

// Four or more different stations, neighbours exactly if they come next to each other round.
pub(crate) fn is_ring(matrix: &Matrix<'_>, ring: &[u8]) -> bool {
    ring.len() >= 4
        && ring
            .iter()
            .enumerate()
            .all(|(place, a)| has_its_place(matrix, ring, place, *a))
}

// Station a at the place differs from the others, and its neighbours are the two next to it.
fn has_its_place(matrix: &Matrix<'_>, ring: &[u8], place: usize, a: u8) -> bool {
    ring.iter().enumerate().all(|(other, b)| {
        let next = are_next(place, other, ring.len());
        place == other || (a != *b && stands(matrix, a, *b) == next)
    })
}

// Two places are next to each other in a round of the length: one apart, or the first and the last.
fn are_next(place: usize, other: usize, round: usize) -> bool {
    let apart = place.abs_diff(other);
    apart == 1 || apart.checked_add(1) == Some(round)
}
