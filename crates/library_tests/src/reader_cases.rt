// The reader on a matrix: names, sizes, and faults by their layer.
use crate::expect::{all, is_wiped};
use crate::large_books::stations;
use crate::script::Step::*;
use crate::script::all_hold;
use book::{BookFault, Layer, LineFault, ReadError, WordFault, read};
use store::{Matrix, Refusal, Store};

// Once the book is read, station k has the name in another text, or none.
fn is_named(book: &[u8], other: &[u8], k: usize, name: Option<&[u8]>) -> bool {
    let mut area = [7; 8192];
    let mut matrix = Matrix::over(&mut area);
    read(book, &mut matrix).is_ok_and(|names| names.name(other, k) == name)
}

// A matrix over a short area refuses the book by 9, and stays.
fn is_too_short_for(book: &[u8]) -> bool {
    let mut area = [255; 8191];
    let mut matrix = Matrix::over(&mut area);
    let refused = read(book, &mut matrix).err() == Some(ReadError::Store(Refusal::AreaTooShort));
    let one_station = matrix.size() == 1;
    refused & one_station & all(&area, 255)
}

// The book is refused for the fault, which lies in the layer; the size stays, and no pair: neither its own nor an earlier one.
fn finds(book: &[u8], fault: BookFault, layer: Layer) -> bool {
    let mut area = [255; 8200];
    let mut matrix = Matrix::over(&mut area);
    let made = matrix.set_size(7).is_ok();
    let refused = read(book, &mut matrix).err() == Some(ReadError::Book(fault));
    let same_size = matrix.size() == 7;
    made & refused & (fault.layer() == layer) & same_size & is_wiped(&area, 255)
}

// The names come in the order of the book, and none after the last.
#[test]
fn answers_the_names(rt: HostRuntime) {
    let book = b"S North\nS b\nT b North\nS ABCDEFGHIJKL\n";
    assert!(rt; is_named(book, book, 0, Some(b"North")));
    assert!(rt; is_named(book, book, 1, Some(b"b")));
    assert!(rt; is_named(book, book, 2, Some(b"ABCDEFGHIJKL")));
    assert!(rt; is_named(book, book, 3, None));
    assert!(rt; is_named(book, book, 18446744073709551615, None));
}

// In a shorter book there is no name that would end past it.
#[test]
fn answers_no_name_past_the_book(rt: HostRuntime) {
    let book = b"S North\nS East\n";
    assert!(rt; is_named(book, b"S North\nS East", 1, Some(b"East")));
    assert!(rt; is_named(book, b"S North\nS Eas", 1, None));
    assert!(rt; is_named(book, b"S North\n", 1, None));
    assert!(rt; is_named(book, b"", 0, None));
}

// All 256 stations of a book have their names.
#[test]
fn answers_256_names(rt: HostRuntime) {
    let book = stations();
    assert!(rt; is_named(&book, &book, 0, Some(b"AA")));
    assert!(rt; is_named(&book, &book, 255, Some(b"PP")));
    assert!(rt; is_named(&book, &book, 17, Some(b"BB")));
    assert!(rt; is_named(&book, &book, 256, None));
}

// An accepted book decides the size and the ties, whatever was there before.
#[test]
fn sets_size_and_ties(rt: HostRuntime) {
    let mut area = [255; 8192];
    let mut matrix = Matrix::over(&mut area);
    let made = matrix.set_size(7).is_ok();
    let book = b"S A\nS B\nS C\nS D\nT D B\nT A C\n";
    let four = read(book, &mut matrix).is_ok_and(|names| names.count() == 4);
    let tied = all_hold(
        &mut matrix,
        &[
            Size(4),
            Count(1, 2),
            Count(2, 0),
            Room(4),
            Mark(1, 3, 1),
            Mark(2, 0, 1),
            Mark(0, 1, 0),
            Mark(1, 2, 0),
        ],
    );
    assert!(rt; made & four & tied);
}

// A refused book leaves the size, and not the ties that come before its fault.
#[test]
fn leaves_the_size_when_it_refuses(rt: HostRuntime) {
    let expected = BookFault::NameUnknown { at: 18, line: 4 };
    assert!(rt; finds(b"S A\nS B\nT A B\nT B C\n", expected, Layer::Book));
}

// A matrix over a short area is refused before the book is read, and stays.
#[test]
fn refuses_a_short_area(rt: HostRuntime) {
    assert!(rt; is_too_short_for(b"S A\n"));
    assert!(rt; is_too_short_for(b"X"));
}

// A fault of a word, here a byte that a name may not hold.
#[test]
fn finds_the_fault_of_a_word(rt: HostRuntime) {
    let fault = LineFault::Word(WordFault::BadByte { at: 7 });
    let expected = BookFault::Line { fault, line: 2 };
    assert!(rt; finds(b"S A\nS B_\n", expected, Layer::Word));
}

// A fault of a line, here too many words.
#[test]
fn finds_the_fault_of_a_line(rt: HostRuntime) {
    let fault = LineFault::WordCount { at: 4 };
    let expected = BookFault::Line { fault, line: 2 };
    assert!(rt; finds(b"S A\nS B C\n", expected, Layer::Line));
}

// A fault of the book, here a name given before.
#[test]
fn finds_the_fault_of_a_book(rt: HostRuntime) {
    let expected = BookFault::NameGiven { at: 10, line: 3 };
    assert!(rt; finds(b"S A\nS B\nS A\n", expected, Layer::Book));
}

// A book without a station has a fault of the book too.
#[test]
fn finds_no_station(rt: HostRuntime) {
    assert!(rt; finds(b"", BookFault::NoStation { size: 0 }, Layer::Book));
}
