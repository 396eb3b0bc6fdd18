// Networks that the tests make on a matrix.
use store::{Matrix, Refusal, Store};

// The pairs of stations that are tied in a square, each with the next.
pub(crate) const SQUARE: [(usize, usize); 4] = [(0, 1), (1, 2), (2, 3), (3, 0)];

// Ties the pairs of the table, up to one that is refused.
// One line each, here and below: a function that is given the call would be no plainer.
pub(crate) fn tie_pairs(matrix: &mut Matrix<'_>, pairs: &[(usize, usize)]) -> Result<(), Refusal> {
    pairs.iter().try_for_each(|(u, v)| matrix.tie(*u, *v))
}

// Lays the pairs of the table as fill, up to one that is refused.
pub(crate) fn lay_pairs(matrix: &mut Matrix<'_>, pairs: &[(usize, usize)]) -> Result<(), Refusal> {
    pairs.iter().try_for_each(|(u, v)| matrix.lay(*u, *v))
}

// Ties each station from the first on with the next, up to the last.
pub(crate) fn tie_path(matrix: &mut Matrix<'_>, first: usize, last: usize) -> Result<(), Refusal> {
    (first..last).try_for_each(|k| matrix.tie(k, k + 1))
}

// Ties the stations from the first to the last round.
pub(crate) fn tie_ring(matrix: &mut Matrix<'_>, first: usize, last: usize) -> Result<(), Refusal> {
    tie_path(matrix, first, last)?;
    matrix.tie(last, first)
}

// Ties the centre with the stations from the first to before the end.
pub(crate) fn tie_star(
    matrix: &mut Matrix<'_>,
    centre: usize,
    first: usize,
    end: usize,
) -> Result<(), Refusal> {
    (first..end).try_for_each(|k| matrix.tie(centre, k))
}

// Makes n stations with the ties of the table.
// The two stay apart: as a struct, named at each of about fifty calls, they would say no more.
pub(crate) fn make_tied(
    matrix: &mut Matrix<'_>,
    n: usize,
    ties: &[(usize, usize)],
) -> Result<(), Refusal> {
    matrix.make(n)?;
    tie_pairs(matrix, ties)
}
