// Reads a field book from standard input, judges its network by list labels and prints the judgement.
#![tactic(auto)]

use input::read_whole;
use report::{judgement, write_answer};
use search::{Label, ListLabel};
use std::io;

fn main(rt: HostRuntime) -> io::Result<()> {
    // One byte more than a book may have, so that a longer one is refused.
    let mut book = [0u8; 65537];
    let len = read_whole(&mut rt.stdin(), &mut book)?;
    let mut area = [0u8; 8192];
    let mut row = [ListLabel::BLANK; 256];
    let mut strip = [0u8; 256];
    let mut marks = [0u8; 256];
    let mut out = [0u8; 65536];
    let answer = judgement(
        &book[..len],
        &mut area,
        &mut row,
        &mut strip,
        &mut marks,
        &mut out,
    );
    write_answer(&mut rt.stdout(), &out, answer)
}
