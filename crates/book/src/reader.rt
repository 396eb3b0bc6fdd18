// Reads a field book into a matrix: its stations and ties, or its first fault.
ghost use Rattle.std.specs.Prelude.{◌≡◌, ◌+◌, ◌<◌, ◌≤◌, length, drop, IfOk};
ghost use Rattle.std.specs.Option.{option_to_list};
ghost use Rattle.store.specs.Matrices.{bytes_of};
ghost use Rattle.book.specs.Shown.{Stands, Placed, StationAdded, NumberFound, TieFound, Admitted, OneLine, Known};
ghost use Rattle.book.specs.Tables.{Inside};
ghost use Rattle.book.specs.Drawing.{Whole, Clear, drawn, BookDone};
ghost use Rattle.book.specs.Promise.{of_store, of_book, Reads};

use crate::faults::BookFault;
use crate::lines::{Line, numbered_line};
use crate::names::Names;
use crate::part::Part;
use store::{Matrix, Refusal, Store};

// A book as far as it has been read: the names given, what is left, and the number of its first line.
#[derive(Drop)]
struct Reader<'b> {
    book: &'b [u8],
    names: Names,
    rest: Part<'b>,
    line: usize,
    ghost inside: { Inside book.now names },
    ghost within: { rest.at ≤ length book.now },
    ghost left: { rest.bytes.now ≡ drop rest.at book.now },
    ghost counted: { line ≤ rest.at + 1 },
    ghost small: { length book.now ≤ 65536 },
}

// Each changing method says which fields stay (`kept`, `book`): of what is behind `&mut self` callers know what a clause says.
impl<'b> Reader<'b> {
    // At the start of the book.
    fn new(book: &'b [u8]) -> Reader<'b>
        requires { length book.now ≤ 65536 }
        ensures book { result.book.now ≡ book.now }
        ensures names { result.names.count ≡ 0 }
        ensures rest { (result.rest.at ≡ 0) × (result.rest.bytes.now ≡ book.now) }
        ensures line { result.line ≡ 1 }
    {
        Reader {
            book,
            names: Names::new(),
            rest: Part { bytes: book, at: 0 },
            line: 1,
        }
    }

    // A new station joins the names.
    fn add_station(&mut self, name: Part<'_>) -> Result<(), BookFault>
        requires { Stands self.old.book.now name }
        ensures added { StationAdded self.old.book.now self.old.line name.entry self.old.names self.new.names result }
        ensures kept { (self.new.book ≡ self.old.book) × (self.new.rest ≡ self.old.rest) × (self.new.line ≡ self.old.line) }
    {
        let line = self.line;
        if self.names.find(self.book, name.bytes).is_some() {
            return Err(BookFault::NameGiven { at: name.at, line });
        }
        if self.names.count() >= 256 {
            return Err(BookFault::TooManyStations { at: name.at, line });
        }
        self.names.add(name);
        Ok(())
    }

    // The number of a station that was given.
    fn find(&self, name: Part<'_>) -> Result<usize, BookFault>
        ensures { NumberFound self.now.book.now self.now.line name.entry self.now.names result }
    {
        let unknown = BookFault::NameUnknown {
            at: name.at,
            line: self.line,
        };
        self.names.find(self.book, name.bytes).ok_or(unknown)
    }

    // The stations of a tie, by number.
    fn find_tie(&self, left: Part<'_>, right: Part<'_>) -> Result<(usize, usize), BookFault>
        ensures { TieFound self.now.book.now self.now.line left.entry right.entry self.now.names result }
    {
        let u = self.find(left)?;
        let v = self.find(right)?;
        if u == v {
            return Err(BookFault::TieToItself {
                at: right.at,
                line: self.line,
            });
        }
        Ok((u, v))
    }

    // A station joins the names; the pair of a tie goes to the caller.
    fn admit(&mut self, l: Line<'_>) -> Result<Option<(usize, usize)>, BookFault>
        requires { Placed self.old.book.now l }
        ensures admitted { Admitted self.old.book.now self.old.line l.entry self.old.names self.new.names result }
        ensures kept { (self.new.book ≡ self.old.book) × (self.new.rest ≡ self.old.rest) × (self.new.line ≡ self.old.line) }
    {
        match l {
            Line::Station(name) => {
                self.add_station(name.part())?;
                Ok(None)
            }
            Line::Tie(left, right) => {
                let pair = self.find_tie(left.part(), right.part())?;
                Ok(Some(pair))
            }
        }
    }

    // Reads the next line, and answers the stations that it ties, if it ties any.
    fn next_line(&mut self) -> Result<Option<(usize, usize)>, BookFault>
        requires { 0 < length self.old.rest.bytes.now }
        ensures book { self.new.book ≡ self.old.book }
        ensures line { IfOk result (λ x. self.new.line ≡ self.old.line + 1) }
        ensures moved { OneLine self.old.book.now self.old.line self.old.rest self.new.rest self.old.names self.new.names result }
    {
        let (l, rest) = numbered_line(self.rest, self.line)?;
        let tie = self.admit(l)?;
        self.rest = rest;
        self.line += 1;
        Ok(tie)
    }
}

// Ties the two stations in the matrix, if the line ties any.
fn draw(matrix: &mut Matrix<'_>, tie: Option<(usize, usize)>)
    requires { (Known 256 tie) × (Whole matrix.old) }
    ensures drawn { bytes_of matrix.new ≡ drawn (option_to_list tie) (bytes_of matrix.old) }
    ensures stations { matrix.new.n ≡ matrix.old.n }
    ensures same_area { matrix.new.area.ghost_name ≡ matrix.old.area.ghost_name }
{
    if let Some((u, v)) = tie {
        // Two different stations of the matrix, so the tie is never refused.
        let _ = matrix.tie(u, v);
    }
}

// The whole book, into a matrix of 256 stations without pairs.
fn read_book(book: &[u8], matrix: &mut Matrix<'_>) -> Result<Names, BookFault>
    requires { (Whole matrix.old) × (Clear (bytes_of matrix.old)) }
    ensures done { BookDone book.now matrix.old matrix.new result }
    ensures stations { matrix.new.n ≡ matrix.old.n }
    ensures same_area { matrix.new.area.ghost_name ≡ matrix.old.area.ghost_name }
{
    if book.len() > 65536 {
        return Err(BookFault::TooLarge { size: book.len() });
    }
    let mut reader = Reader::new(book);
    while !reader.rest.bytes.is_empty() {
        let tie = reader.next_line()?;
        draw(matrix, tie);
    }
    if reader.names.count() == 0 {
        return Err(BookFault::NoStation { size: book.len() });
    }
    Ok(reader.names)
}

// Why a book is not read: the store refuses, or the book has a fault.
#[derive(Clone, Copy, Debug, PartialEq, Eq, Hash)]
pub enum ReadError {
    Store(Refusal),
    Book(BookFault),
}

impl From<Refusal> for ReadError {
    ghost from_gives = { λ r e. e ≡ of_store r };

    fn from(refusal: Refusal) -> ReadError {
        ReadError::Store(refusal)
    }
}

impl From<BookFault> for ReadError {
    ghost from_gives = { λ f e. e ≡ of_book f };

    fn from(fault: BookFault) -> ReadError {
        ReadError::Book(fault)
    }
}

// Sets the size and the ties of the matrix to the book's, without fill, and answers the names of the
// stations; or refuses the book, and the matrix keeps its size and has no pair.
pub fn read(book: &[u8], matrix: &mut Matrix<'_>) -> Result<Names, ReadError>
    ensures reads { Reads book.now matrix.old matrix.new result }
    ensures same_area { matrix.new.area.ghost_name ≡ matrix.old.area.ghost_name }
{
    let size = matrix.size();
    matrix.make(256)?;
    // No `?`: the matrix is set right before a fault goes on.
    match read_book(book, matrix) {
        Ok(names) => {
            matrix.set_size(names.count())?;
            Ok(names)
        }
        Err(fault) => {
            matrix.make(size)?;
            Err(fault.into())
        }
    }
}
