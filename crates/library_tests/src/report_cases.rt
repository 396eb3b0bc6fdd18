// The areas that a report is given: how long they must be, and what it leaves in them.
use crate::expect::{all, only, writes};
use book::BookFault;
use report::report;
use std::test::Fail;
use store::Refusal;

// The report into these areas, of bytes 7 and of bytes 9, is refused by 9, and both keep their bytes.
fn refuses(book: &[u8], area: &mut [u8], out: &mut [u8]) -> bool {
    report(book, area, out) == Err(Refusal::AreaTooShort) && all(area, 7) && all(out, 9)
}

// The report into the shortest areas writes the line, and the matrix holds the bytes of the table alone.
fn leaves(book: &[u8], line: &[u8], table: &[(usize, u8)]) -> bool {
    let mut area = [7; 8192];
    writes(book, &mut area, &mut [9; 65536], line) && only(&area, table)
}

// An area below 8,192 bytes is refused, whatever the book says.
#[test]
fn refuses_a_short_matrix_area(rt: HostRuntime) {
    assert!(rt; refuses(b"S A\n", &mut [7; 8191], &mut [9; 65536]));
    assert!(rt; refuses(b"", &mut [7; 8191], &mut [9; 65536]));
    assert!(rt; refuses(b"S A\n", &mut [], &mut [9; 65536]));
}

// An output area below 65,536 bytes is refused, however short the line would be.
#[test]
fn refuses_a_short_output_area(rt: HostRuntime) {
    assert!(rt; refuses(b"S A\n", &mut [7; 8192], &mut [9; 65535]));
    assert!(rt; refuses(b"X", &mut [7; 8192], &mut [9; 65535]));
    assert!(rt; refuses(b"S A\n", &mut [7; 8192], &mut []));
    assert!(rt; refuses(b"S A\n", &mut [], &mut []));
}

// Areas of exactly 8,192 and 65,536 bytes are enough.
#[test]
fn accepts_the_shortest_areas(rt: HostRuntime) {
    assert!(rt; leaves(b"S A\nS B\n", b"stations 2 ties 0\n", &[]));
}

// An accepted book's ties are all that the matrix holds.
#[test]
fn leaves_the_ties_of_a_square(rt: HostRuntime) {
    let book = b"S A\nS B\nS C\nS D\nT A B\nT B C\nT C D\nT A D\n";
    assert!(rt;
        leaves(
            book,
            b"stations 4 ties 4\n",
            &[(0, 10), (32, 5), (64, 10), (96, 5)],
        )
    );
}

// A refusal and a book's fault print themselves.
#[test]
fn prints_refusals_and_faults(rt: HostRuntime) -> Result<(), Fail> {
    let refusal = Refusal::AreaTooShort;
    let fault = BookFault::NameUnknown { at: 18, line: 4 };
    let text = format!(in rt.alloc(); "{refusal}, {fault}")?;
    assert_eq!(rt; text.as_str(), "refused 9, refused 27 line 4 byte 18");
    Ok(())
}
