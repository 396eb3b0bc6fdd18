// The answer of a call, printed.
ghost use Rattle.std.specs.Prelude.{OnOk};
ghost use Rattle.std.specs.Io.KnownBytes.{Appends};
ghost use Rattle.report.specs.Promise.{answer_text};

use std::io;
use std::io::Write;
use store::Refusal;

// Writes as many bytes of the text as the answer counts, or the line of its refusal.
pub fn write_answer<W: Write>(
    output: &mut W,
    text: &[u8],
    answer: Result<usize, Refusal>,
) -> io::Result<()>
    ensures { OnOk result (Appends (W.contents output.old) (W.contents output.new) (answer_text text.now answer)) }
{
    match answer {
        Ok(written) => output.write_all(&text[..written.min(text.len())]),
        Err(refusal) => writeln!(output, "{refusal}"),
    }
}
