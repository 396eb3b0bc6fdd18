// Prints the judgement of each of a table of small field books, by list labels and by count labels. The books stand on standard
// input, each ended by `=`.
#![tactic(auto)]

use input::read_whole;
use report::{judgement, write_answer};
use search::{CountLabel, Label, ListLabel};
use std::io;

// Prints the book's judgement by the labels of a blank row.
fn print_judgement<L: Label + Copy>(
    rt: &HostRuntime,
    row: &mut [L; 256],
    book: &[u8],
) -> io::Result<()> {
    let mut area = [0u8; 8192];
    let mut strip = [0u8; 256];
    let mut marks = [0u8; 256];
    let mut out = [0u8; 65536];
    let answer = judgement(book, &mut area, row, &mut strip, &mut marks, &mut out);
    write_answer(&mut rt.stdout(), &out, answer)
}

fn main(rt: HostRuntime) -> io::Result<()> {
    let mut table = [0u8; 65536];
    let len = read_whole(&mut rt.stdin(), &mut table)?;
    for part in table[..len].split_inclusive(|&byte| byte == b'=') {
        if let Some(book) = part.strip_suffix(b"=") {
            println!(rt; "---")?;
            print_judgement(&rt, &mut [ListLabel::BLANK; 256], book)?;
            print_judgement(&rt, &mut [CountLabel::BLANK; 256], book)?;
        }
    }
    Ok(())
}
