// Standard input, or any other reader, into a lent buffer.
#![tactic(auto)]

ghost use Rattle.std.specs.Prelude.{◌<◌, ◌≤◌, length, take, IfOk};
ghost use Rattle.std.specs.Io.KnownBytes.{Consumes, IsAtEnd};

use std::io;
use std::io::Read;

// Reads until the buffer is full or the input ends; how many bytes were read.
// A loop, since std reads to the end into a `Vec`, which needs a heap, or a whole buffer, which a short input does not fill.
pub fn read_whole<R: Read>(input: &mut R, buffer: &mut [u8]) -> io::Result<usize>
    ensures within { IfOk result (λ len. len ≤ length buffer.old) }
    ensures bytes { IfOk result (λ len. Consumes (R.remaining input.old) (R.remaining input.new) (take len buffer.new)) }
    ensures ended { IfOk result (λ len. len < length buffer.old → IsAtEnd (R.remaining input.new)) }
{
    let mut len = 0;
    while len < buffer.len() {
        let read = input.read(&mut buffer[len..])?;
        if read == 0 {
            break;
        }
        len += read;
    }
    Ok(len)
}
