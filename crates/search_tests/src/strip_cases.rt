// The shortest strips, marks and rows, and what a call leaves in marks.
use crate::networks::{SQUARE, make_tied};
use crate::plain::{all, is_clean, is_patterned, patterned};
use search::{Label, ListLabel, Marks, Verdict, judge};
use store::Matrix;

// The judge says so of four stations with the ties, in this strip with these marks, and the bytes after what it writes stay.
fn says_in(ties: &[(usize, usize)], strip: &mut [u8], marks: &mut [u8], expected: Verdict) -> bool {
    let mut area = [0; 8192];
    let mut matrix = Matrix::over(&mut area);
    let made = make_tied(&mut matrix, 4, ties).is_ok();
    let labels = &mut [ListLabel::BLANK; 256];
    let said = judge(&matrix, labels, strip, marks) == Ok(expected);
    made & said & is_patterned(strip, 4) & is_clean(marks)
}

// Strips and marks of 256 and of 300 bytes serve alike, for an order and for a ring.
#[test]
fn keeps_the_other_bytes(rt: HostRuntime) {
    let path = [(0, 1), (1, 2), (2, 3)];
    let table = [
        (path.as_slice(), Verdict::Chordal),
        (SQUARE.as_slice(), Verdict::Ring(4)),
    ];
    for (ties, expected) in table {
        let (strip, marks) = (&mut patterned::<256>(), &mut patterned::<256>());
        assert!(rt; says_in(ties, strip, marks, expected));
        let (strip, marks) = (&mut patterned::<300>(), &mut patterned::<300>());
        assert!(rt; says_in(ties, strip, marks, expected));
    }
}

// A guard over the strip that is let go at once.
fn guard(strip: &mut [u8]) {
    let _guard = Marks::over(strip);
}

// A guard over the strip leaves its first bytes 0, and those from 256 on as they were.
fn cleans(strip: &mut [u8]) -> bool {
    guard(strip);
    let end = strip.len().min(256);
    all(&strip[0..end], 0) && is_patterned(strip, end)
}

// Marks are 0 again once their guard is let go, however short the strip is.
#[test]
fn guards_marks(rt: HostRuntime) {
    assert!(rt; cleans(&mut patterned::<0>()));
    assert!(rt; cleans(&mut patterned::<1>()));
    assert!(rt; cleans(&mut patterned::<255>()));
    assert!(rt; cleans(&mut patterned::<256>()));
    assert!(rt; cleans(&mut patterned::<257>()));
    assert!(rt; cleans(&mut patterned::<300>()));
}
