// One line of a field book, read for its shape.
ghost use Rattle.std.specs.Prelude.{◌≡◌};
ghost use Rattle.book.specs.Reading.{after_s, after_t, line_read};
ghost use Rattle.book.specs.Shown.{OneWord, TwoWords, place_of, pieces_of, line_shown, LineAt, NumberedLine};

use crate::faults::{FaultInLine, LineFault};
use crate::part::Part;
use crate::words::Word;

// A line of the right shape: a station's name, or the names of a tie. A form that the project prescribes.
#[derive(Clone, Copy)]
pub enum Line<'a> {
    Station(Word<'a>),
    Tie(Word<'a>, Word<'a>),
}

// The one word that follows, if it has a byte.
fn one_word<'a>(rest: Option<Part<'a>>) -> Option<Part<'a>>
    ensures { OneWord rest.entry result }
{
    let (word, more) = rest?.cut(b' ');
    if more.is_some() || word.bytes.is_empty() {
        return None;
    }
    Some(word)
}

// The two words that follow, if each has a byte.
fn two_words<'a>(rest: Option<Part<'a>>) -> Option<(Part<'a>, Part<'a>)>
    ensures { TwoWords rest.entry result }
{
    let (left, rest) = rest?.cut(b' ');
    let right = one_word(rest)?;
    if left.bytes.is_empty() {
        return None;
    }
    Some((left, right))
}

// The line at `at`, by what follows its S.
fn station_line<'a>(at: usize, rest: Option<Part<'a>>) -> Result<Line<'a>, LineFault>
    ensures { line_shown result ≡ after_s at (place_of rest.entry) (pieces_of 32 rest.entry) }
{
    let name = one_word(rest).ok_or(LineFault::WordCount { at })?;
    let name = name.name()?;
    Ok(Line::Station(name))
}

// The line at `at`, by what follows its T.
fn tie_line<'a>(at: usize, rest: Option<Part<'a>>) -> Result<Line<'a>, LineFault>
    ensures { line_shown result ≡ after_t at (place_of rest.entry) (pieces_of 32 rest.entry) }
{
    let (left, right) = two_words(rest).ok_or(LineFault::WordCount { at })?;
    let left = left.name()?;
    let right = right.name()?;
    Ok(Line::Tie(left, right))
}

// The line without its byte 10.
fn read_line<'a>(line: Part<'a>) -> Result<Line<'a>, LineFault>
    ensures { line_shown result ≡ line_read line.entry.at line.entry.bytes.now }
{
    let (kind, rest) = line.cut(b' ');
    match kind.word() {
        Word::StationKind(_) => station_line(line.at, rest),
        Word::TieKind(_) => tie_line(line.at, rest),
        Word::Name(_) => Err(LineFault::UnknownKind { at: line.at }),
    }
}

// The first line of the text, and what follows its byte 10.
fn line_at<'a>(text: Part<'a>) -> Result<(Line<'a>, Part<'a>), LineFault>
    ensures { LineAt text.entry result }
{
    let (line, rest) = text.cut(b'\n');
    let rest = rest.ok_or(LineFault::NoNewline { at: text.at })?;
    let line = read_line(line)?;
    Ok((line, rest))
}

// The same, a fault with the line's number.
pub(crate) fn numbered_line<'a>(
    text: Part<'a>,
    line: usize,
) -> Result<(Line<'a>, Part<'a>), FaultInLine>
    ensures { NumberedLine text.entry line result }
{
    line_at(text).map_err(|fault| FaultInLine { fault, line })
}
