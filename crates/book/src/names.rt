// The names of the stations, by where they stand in the book.
ghost use Rattle.std.specs.Prelude.{◌≡◌, ◌+◌, ◌<◌, ◌≤◌, length};
ghost use Rattle.std.specs.Str.{bytes_eq};
ghost use Rattle.book.specs.Reading.{found};
ghost use Rattle.book.specs.Tables.{span_of, spanned, names_in, Fits, Inside, Added, SpanFound, NameFound};

use crate::part::Part;

// Where a name stands in a book: the place of its first byte, and how many bytes it has.
#[derive(Clone, Copy)]
struct Span {
    start: usize,
    len: usize,
}

impl Span {
    // The name in the book, if the book has so many bytes.
    fn of<'a>(self, book: &'a [u8]) -> Option<&'a [u8]>
        ensures { SpanFound book.now self result }
    {
        book.get(self.start..)?.get(..self.len)
    }

    // Whether the book has the name here.
    fn is_name(self, book: &[u8], name: &[u8]) -> bool
        requires { Fits book.now self }
        ensures { result ≡ bytes_eq (spanned book.now self) name.now }
    {
        &book[self.start..self.start + self.len] == name
    }
}

// The names of the stations, in the order that the book gives them.
// An array with a count, since there is no heap and `Names` is `Copy`.
#[derive(Clone, Copy)]
pub struct Names {
    spans: [Span; 256],
    count: usize,
}

impl Names {
    // No names.
    pub(crate) fn new() -> Names
        ensures { result.count ≡ 0 }
    {
        Names {
            spans: [Span { start: 0, len: 0 }; 256],
            count: 0,
        }
    }

    // How many stations there are.
    pub fn count(&self) -> usize
        ensures { result ≡ self.now.count }
    {
        self.count
    }

    // The name of station k in the book that was read.
    pub fn name<'a>(&self, book: &'a [u8], k: usize) -> Option<&'a [u8]>
        ensures { NameFound book.now self.now k result }
    {
        if k >= self.count {
            return None;
        }
        self.spans.get(k)?.of(book)
    }

    // The number of the name among those given.
    pub(crate) fn find(&self, book: &[u8], name: &[u8]) -> Option<usize>
        requires { Inside book.now self.now }
        ensures { result ≡ found name.now (names_in book.now self.now) }
    {
        self.spans[..self.count]
            .iter()
            .position(|span| span.is_name(book, name))
    }

    // One more name.
    pub(crate) fn add(&mut self, name: Part<'_>)
        requires { self.old.count < 256 }
        ensures { Added self.old self.new (span_of name.entry) }
    {
        let Names { spans, count } = self;
        spans[*count] = Span {
            start: name.at,
            len: name.bytes.len(),
        };
        *count += 1;
    }
}
