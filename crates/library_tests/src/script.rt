// Tables of calls on a matrix with the answers that they must give.
use crate::expect::all;
use store::{Matrix, Refusal, Store};

// A call on a matrix, and last the answer that it must give.
// A table: a row is one call and its answer, where a closure would name the matrix again in each row and say no more.
#[derive(Clone, Copy)]
pub(crate) enum Step {
    Make(usize, Result<(), Refusal>),
    SetSize(usize, Result<(), Refusal>),
    Tie(usize, usize, Result<(), Refusal>),
    Lay(usize, usize, Result<(), Refusal>),
    Size(usize),
    Room(usize),
    Mark(usize, usize, u8),
    Count(u8, usize),
}

// The call gives its answer.
fn holds(matrix: &mut Matrix<'_>, step: &Step) -> bool {
    match *step {
        Step::Make(n, answer) => matrix.make(n) == answer,
        Step::SetSize(n, answer) => matrix.set_size(n) == answer,
        Step::Tie(u, v, answer) => matrix.tie(u, v) == answer,
        Step::Lay(u, v, answer) => matrix.lay(u, v) == answer,
        Step::Size(answer) => matrix.size() == answer,
        Step::Room(answer) => matrix.room() == answer,
        Step::Mark(u, v, answer) => matrix.mark(u, v) == answer,
        Step::Count(mark, answer) => matrix.count(mark) == answer,
    }
}

// The calls, one after another, give their answers.
pub(crate) fn all_hold(matrix: &mut Matrix<'_>, steps: &[Step]) -> bool {
    steps.iter().all(|step| holds(matrix, step))
}

// The calls on a new matrix over the area give their answers.
pub(crate) fn plays(area: &mut [u8], steps: &[Step]) -> bool {
    all_hold(&mut Matrix::over(area), steps)
}

// The same over bytes 0.
pub(crate) fn plays_over_zeros(steps: &[Step]) -> bool {
    plays(&mut [0; 8192], steps)
}

// The same over an area of one value, of which no byte changes.
pub(crate) fn keeps(area: &mut [u8], value: u8, steps: &[Step]) -> bool {
    area.fill(value);
    plays(area, steps) && all(area, value)
}

// The same over 8,192 bytes of the value.
pub(crate) fn keeps_matrix(value: u8, steps: &[Step]) -> bool {
    keeps(&mut [0; 8192], value, steps)
}
