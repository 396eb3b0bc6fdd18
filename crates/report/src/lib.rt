// The report: what a field book holds, as text.
#![tactic(auto)]

ghost use Rattle.report.specs.Promise.{Reports};

use book::read;
use store::{Matrix, Refusal, Store};
use text::{write_accepted, write_error};

mod answer;
mod judged;
mod text;
mod verdict;

pub use answer::write_answer;
pub use judged::judgement;

// Reads the book into a matrix over the area and writes one line at the start of the output: the counts
// of stations and ties, or the first fault. Answers how many bytes it wrote, or refuses by 9.
pub fn report(book: &[u8], area: &mut [u8], out: &mut [u8]) -> Result<usize, Refusal>
    ensures { Reports book.now area.old area.new out.old out.new result }
{
    if area.len() < 8192 || out.len() < 65536 {
        return Err(Refusal::AreaTooShort);
    }
    let mut matrix = Matrix::over(area);
    match read(book, &mut matrix) {
        Ok(_) => Ok(write_accepted(out, matrix.size(), matrix.count(1))),
        Err(error) => write_error(out, error),
    }
}
