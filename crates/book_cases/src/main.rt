// Prints a table of small field books with the report of each. A book is a line of standard input,
// in which `\n` stands for byte 10 and `\xHH` for the byte of those two hexadecimal digits.
#![tactic(auto)]

ghost use Rattle.std.specs.Prelude.{◌<◌, length, IfSome};

use arrayvec::ArrayVec;
use report::{report, write_answer};
use std::io;
use std::io::{BufRead, BufReader};

// The value of a hexadecimal digit, and 0 for any other byte; `to_digit` would have to be unwrapped and narrowed.
fn digit(b: u8) -> u8
    ensures { result < 16 }
{
    match b {
        b'0'..=b'9' => b - b'0',
        b'a'..=b'f' => b - b'a' + 10,
        _ => 0,
    }
}

// The first byte that the line stands for, and the rest of the line.
fn next_byte(line: &[u8]) -> Option<(u8, &[u8])>
    ensures { IfSome result (λ next. length next.1.now < length line.now) }
{
    match line {
        [] => None,
        [b'\\', b'x', high, low, rest @ ..] => Some((digit(*high) * 16 + digit(*low), rest)),
        [b'\\'] => Some((b'\n', &[])),
        [b'\\', _, rest @ ..] => Some((b'\n', rest)),
        [byte, rest @ ..] => Some((*byte, rest)),
    }
}

// The book that the line stands for, of 256 bytes at most.
fn unescape(line: &[u8]) -> ArrayVec<u8, 256> {
    let mut book = ArrayVec::new();
    let mut left = line;
    while let Some((byte, rest)) = next_byte(left) {
        if book.try_push(byte).is_err() {
            break;
        }
        left = rest;
    }
    book
}

// Prints one row of the table: the book as it stands there, and its report.
fn print_case(rt: &HostRuntime, line: &str) -> io::Result<()> {
    let mut area = [0u8; 8192];
    let mut out = [0u8; 65536];
    let book = unescape(line.as_bytes());
    print!(rt; "{line} => ")?;
    let answer = report(book.as_slice(), &mut area, &mut out);
    write_answer(&mut rt.stdout(), &out, answer)
}

fn main(rt: HostRuntime) -> io::Result<()> {
    for line in BufReader::new(rt.alloc(), rt.stdin())?.lines(rt.alloc()) {
        print_case(&rt, line?.as_str())?;
    }
    Ok(())
}
