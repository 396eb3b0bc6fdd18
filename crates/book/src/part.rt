// A piece of the book with its place, cut into lines and words, and whether one is a name.
ghost use Rattle.std.specs.Prelude.{◌≡◌, ◌+◌, ◌^◌, ◌<◌, length};
ghost use Rattle.book.specs.Grammar.{name_byte};

use crate::faults::WordFault;
use crate::words::Word;

// Bytes of the book, and the place of the first of them.
#[derive(Clone, Copy)]
pub struct Part<'a> {
    pub bytes: &'a [u8],
    pub at: usize,
    ghost fits: { at + length bytes.now < 2 ^ 64 },
}

// Whether a name may hold the byte.
fn allowed(b: u8) -> bool
    ensures { result ≡ name_byte b }
{
    matches!(b, b'-' | b'.' | b'0'..=b'9' | b'A'..=b'Z' | b'a'..=b'z')
}

impl<'a> Part<'a> {
    ghost use Rattle.book.specs.Shown.{Halves, KindOf, BadAt, NameWord};

    // The piece before the first byte `by`, and what follows that byte, if there is one.
    pub(crate) fn cut(self, by: u8) -> (Part<'a>, Option<Part<'a>>)
        ensures { Halves by self.entry result.0 result.1 }
    {
        let Some(len) = self.bytes.iter().position(|b| *b == by) else {
            return (self, None);
        };
        let piece = Part {
            bytes: &self.bytes[..len],
            at: self.at,
        };
        let rest = Part {
            bytes: &self.bytes[len + 1..],
            at: self.at + len + 1,
        };
        (piece, Some(rest))
    }

    // The word by its kind.
    pub(crate) fn word(self) -> Word<'a>
        ensures { KindOf self.entry result }
    {
        match self.bytes {
            [b'S'] => Word::StationKind(self),
            [b'T'] => Word::TieKind(self),
            _ => Word::Name(self),
        }
    }

    // The place in the book of the first byte that a name may not hold.
    fn bad_byte(self) -> Option<usize>
        ensures { BadAt self.entry.at self.entry.bytes.now result }
    {
        // A `for` over the bytes with their index: a form that the project prescribes.
        for (i, b) in self.bytes.iter().enumerate() {
            if !allowed(*b) {
                return Some(self.at + i);
            }
        }
        None
    }

    // The name, of 12 bytes at most, each allowed.
    pub(crate) fn name(self) -> Result<Word<'a>, WordFault>
        ensures { NameWord self.entry result }
    {
        if self.bytes.len() > 12 {
            return Err(WordFault::TooLong { at: self.at });
        }
        if let Some(at) = self.bad_byte() {
            return Err(WordFault::BadByte { at });
        }
        Ok(Word::Name(self))
    }
}
