// One call by labels of a kind, and by all three kinds.
use crate::inclusion_label::InclusionLabel;
use crate::plain::{begins, is_clean, is_order, is_patterned, is_perfect, is_ring, patterned};
use search::{CountLabel, Label, ListLabel, Verdict, judge, search};
use store::{Matrix, Store};

// The strip begins with what the verdict tells of, and goes on as before the call.
fn shows(matrix: &Matrix<'_>, verdict: Verdict, strip: &[u8; 300]) -> bool {
    match verdict {
        Verdict::Chordal => {
            let n = matrix.size();
            n <= 256
                && is_order(&strip[0..n])
                && is_perfect(matrix, &strip[0..n])
                && is_patterned(strip, n)
        }
        Verdict::Ring(k) => k <= 256 && is_ring(matrix, &strip[0..k]) && is_patterned(strip, k),
    }
}

// The judge says what is expected, shows it in the strip and cleans the marks.
// Labels are lent, here and below: tried with an array made inside, and that 256 of any kind fit in memory did not close.
pub(crate) fn says<L: Label + Copy>(
    matrix: &Matrix<'_>,
    labels: &mut [L],
    expected: Verdict,
) -> bool {
    let mut strip = patterned::<300>();
    let mut marks = patterned::<300>();
    judge(matrix, labels, &mut strip, &mut marks) == Ok(expected)
        && is_clean(&marks)
        && shows(matrix, expected, &strip)
}

// The same by all three kinds of label.
pub(crate) fn all_say(matrix: &Matrix<'_>, expected: Verdict) -> bool {
    says(matrix, &mut [CountLabel::BLANK; 256], expected)
        && says(matrix, &mut [ListLabel::BLANK; 256], expected)
        && says(matrix, &mut [InclusionLabel::BLANK; 256], expected)
}

// The search writes the order, and nothing after it.
fn search_orders<L: Label + Copy>(matrix: &Matrix<'_>, labels: &mut [L], order: &[u8]) -> bool {
    let mut strip = patterned::<300>();
    search(matrix, labels, &mut strip) == Ok(()) && begins(&strip, order)
}

// The judge says what is expected, and writes the order too where the network is chordal.
fn judge_orders<L: Label + Copy>(
    matrix: &Matrix<'_>,
    labels: &mut [L],
    expected: Verdict,
    order: &[u8],
) -> bool {
    let mut strip = patterned::<300>();
    let said = judge(matrix, labels, &mut strip, &mut [0; 256]) == Ok(expected);
    said && (expected != Verdict::Chordal || begins(&strip, order))
}

// The search writes the order, and the judge says what is expected.
pub(crate) fn orders<L: Label + Copy>(
    matrix: &Matrix<'_>,
    labels: &mut [L],
    expected: Verdict,
    order: &[u8],
) -> bool {
    search_orders(matrix, labels, order) & judge_orders(matrix, labels, expected, order)
}
