// Reads a field book from standard input and prints its report.
#![tactic(auto)]

use input::read_whole;
use report::{report, write_answer};
use std::io;

fn main(rt: HostRuntime) -> io::Result<()> {
    // One byte more than a book may have, so that a longer one is refused.
    let mut book = [0u8; 65537];
    let len = read_whole(&mut rt.stdin(), &mut book)?;
    let mut area = [0u8; 8192];
    let mut out = [0u8; 65536];
    let answer = report(&book[..len], &mut area, &mut out);
    write_answer(&mut rt.stdout(), &out, answer)
}
