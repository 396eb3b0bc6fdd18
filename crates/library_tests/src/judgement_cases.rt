// The judgement of small books: its text, what it leaves, and the areas, strips and rows that it refuses.
use crate::expect::{all, is_wiped, is_written, only};
use report::judgement;
use search::{CountLabel, Label};
use store::Refusal;

// What a judgement is lent: area, strip and marks longer than they have to be, and the output.
#[derive(Drop)]
struct Lent {
    area: [u8; 8200],
    strip: [u8; 260],
    marks: [u8; 260],
    out: [u8; 65540],
}

impl Lent {
    // Each with bytes of its own.
    fn new() -> Lent {
        Lent {
            area: [7; 8200],
            strip: [5; 260],
            marks: [6; 260],
            out: [9; 65540],
        }
    }

    // The book is judged, and the output is the text and then bytes 9.
    fn tells(&mut self, book: &[u8], text: &[u8]) -> bool {
        let row = &mut [CountLabel::BLANK; 256];
        let answer = judgement(
            book,
            &mut self.area,
            row,
            &mut self.strip,
            &mut self.marks,
            &mut self.out,
        );
        answer == Ok(text.len()) && is_written(&self.out, text)
    }
}

// The judgement is the text; the strip begins with the stations, the marks are zero, and the later bytes stay.
fn shows(book: &[u8], text: &[u8], stations: &[u8], table: &[(usize, u8)]) -> bool {
    let mut lent = Lent::new();
    let told = lent.tells(book, text);
    let area = only(&lent.area[0..8192], table) & all(&lent.area[8192..], 7);
    let marks = all(&lent.marks[0..256], 0) & all(&lent.marks[256..], 6);
    let rest = lent.strip.strip_prefix(stations);
    told & area & marks & rest.is_some_and(|rest| all(rest, 5))
}

// The judgement of a refused book is its line; strip and marks stay, and the matrix is empty.
fn refuses_book(book: &[u8], line: &[u8]) -> bool {
    let mut lent = Lent::new();
    let told = lent.tells(book, line);
    let kept = all(&lent.strip, 5) & all(&lent.marks, 6);
    told & kept & is_wiped(&lent.area, 7)
}

// Which of the lent slices is one shorter than it has to be.
#[derive(Clone, Copy, Default)]
struct Short {
    area: bool,
    out: bool,
    row: bool,
    strip: bool,
    marks: bool,
}

// The judgement with such slices is refused, and all bytes stay.
fn stops(short: Short, refusal: Refusal) -> bool {
    let mut area = [7; 8192];
    let mut out = [9; 65536];
    let mut row = [CountLabel::BLANK; 256];
    let mut strip = [5; 256];
    let mut marks = [6; 256];
    let answer = judgement(
        b"S A\n",
        &mut area[usize::from(short.area)..],
        &mut row[usize::from(short.row)..],
        &mut strip[usize::from(short.strip)..],
        &mut marks[usize::from(short.marks)..],
        &mut out[usize::from(short.out)..],
    );
    let kept = all(&area, 7) & all(&strip, 5) & all(&marks, 6) & all(&out, 9);
    (answer == Err(refusal)) & kept
}

// A square is a ring of four, in turn.
#[test]
fn tells_the_ring_of_a_square(rt: HostRuntime) {
    let book = b"S A\nS B\nS C\nS D\nT A B\nT B C\nT C D\nT A D\n";
    let text = b"ring 4\no A\no B\no C\no D\n";
    assert!(rt;
        shows(
            book,
            text,
            &[0, 1, 2, 3],
            &[(0, 10), (32, 5), (64, 10), (96, 5)],
        )
    );
}

// Names of 1 and of 12 bytes, and the order of a path.
#[test]
fn tells_the_order_of_a_path(rt: HostRuntime) {
    let book = b"S North-Pier.1\nS a\nS 9\nT North-Pier.1 a\nT a 9\n";
    let text = b"chordal\n> 9\n> a\n> North-Pier.1\n";
    assert!(rt; shows(book, text, &[2, 1, 0], &[(0, 2), (32, 5), (64, 2)]));
    assert!(rt; shows(b"S A\n", b"chordal\n> A\n", &[0], &[]));
}

// A refused book tells its first fault.
#[test]
fn tells_the_fault_of_a_book(rt: HostRuntime) {
    assert!(rt; refuses_book(b"", b"refused 30 line 0 byte 0\n"));
    assert!(rt; refuses_book(b"S A\nT A B\n", b"refused 27 line 2 byte 8\n"));
}

// Short areas are refused by 9, also where strips are short too.
#[test]
fn refuses_short_areas(rt: HostRuntime) {
    let area = Short {
        area: true,
        ..Short::default()
    };
    let out = Short {
        out: true,
        ..Short::default()
    };
    let each = Short {
        area: true,
        out: true,
        row: true,
        strip: true,
        marks: true,
    };
    assert!(rt; stops(area, Refusal::AreaTooShort));
    assert!(rt; stops(out, Refusal::AreaTooShort));
    assert!(rt; stops(each, Refusal::AreaTooShort));
    assert!(rt; stops(Short { strip: true, ..out }, Refusal::AreaTooShort));
}

// Short rows, strips and marks are refused by 11.
#[test]
fn refuses_short_rows_and_strips(rt: HostRuntime) {
    let row = Short {
        row: true,
        ..Short::default()
    };
    let strip = Short {
        strip: true,
        ..Short::default()
    };
    let marks = Short {
        marks: true,
        ..Short::default()
    };
    assert!(rt; stops(row, Refusal::StripTooShort));
    assert!(rt; stops(strip, Refusal::StripTooShort));
    assert!(rt; stops(marks, Refusal::StripTooShort));
    assert!(rt;
        stops(
            Short {
                strip: true,
                marks: true,
                ..row
            },
            Refusal::StripTooShort
        )
    );
}
