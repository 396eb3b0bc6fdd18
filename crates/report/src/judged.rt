// The judgement of a field book's network, as text.
ghost use Rattle.report.specs.Judgements.{Judgements};

use crate::text::write_error;
use crate::verdict::write_verdict;
use book::read;
use search::{Label, judge};
use store::{Matrix, Refusal};

// Reads the book into a matrix over the area, judges its network and writes at the start of the output: whether it is chordal,
// with the names in the search's order, or a ring, with the names round it; or the book's first fault. Answers how many bytes it
// wrote, or refuses by 9 or 11.
pub fn judgement<L: Label + Copy>(
    book: &[u8],
    area: &mut [u8],
    labels: &mut [L],
    strip: &mut [u8],
    marks: &mut [u8],
    out: &mut [u8],
) -> Result<usize, Refusal>
    ensures { Judgements L.BLANK L.raised L.less book.now area.old area.new labels.old labels.new strip.old strip.new marks.old marks.new out.old out.new result }
{
    if area.len() < 8192 || out.len() < 65536 {
        return Err(Refusal::AreaTooShort);
    }
    if strip.len() < 256 || labels.len() < 256 || marks.len() < 256 {
        return Err(Refusal::StripTooShort);
    }
    let mut matrix = Matrix::over(area);
    match read(book, &mut matrix) {
        Ok(names) => {
            let verdict = judge(&matrix, labels, strip, marks)?;
            Ok(write_verdict(out, book, &names, strip, verdict))
        }
        Err(error) => write_error(out, error),
    }
}
