// Writes plain lines of text into an area that the caller lends.
ghost use Rattle.std.specs.Prelude.{◌≡◌, ◌≤◌, length, decimal};
ghost use Rattle.book.specs.Faults.{fault_of};
ghost use Rattle.report.specs.Lines.{labelled, accepted_line, Wrote};
ghost use Rattle.report.specs.Promise.{fault_line, Explains};
ghost use Rattle.report.specs.Texts.{HasRoom, Extends};

use book::{BookFault, ReadError};
use itoa::Buffer;
use store::Refusal;

// The text that is written so far: the first `len` bytes of the area. The area is lent, so no list of fixed capacity holds it.
#[derive(Drop)]
pub(crate) struct Text<'a> {
    area: &'a mut [u8],
    len: usize,
}

impl<'a> Text<'a> {
    // No text, at the start of the area.
    pub(crate) fn at_start(area: &'a mut [u8]) -> Text<'a>
        ensures same_area { result.area.ghost_name ≡ area.entry.ghost_name }
        ensures area { result.area.now ≡ area.old }
        ensures empty { result.len ≡ 0 }
    {
        Text { area, len: 0 }
    }

    // How many bytes the text has.
    pub(crate) fn len(&self) -> usize
        ensures { result ≡ self.now.len }
    {
        self.len
    }

    // Adds the bytes at the end of the text.
    pub(crate) fn push(&mut self, bytes: &[u8])
        requires { HasRoom self.old bytes.now }
        ensures { Extends self.old bytes.now self.new }
    {
        let end = self.len + bytes.len();
        self.area[self.len..end].copy_from_slice(bytes);
        self.len = end;
    }

    // Adds the label and the number after it, by `itoa`: no clause says that `write!` or `InlineText` writes its text whole.
    #[tactic(auto, using(crate::proofs::Texts::few_digits))]
    pub(crate) fn push_labelled(&mut self, label: &[u8], n: usize)
        requires { HasRoom self.old (labelled label.now n) }
        ensures { Extends self.old (labelled label.now n) self.new }
    {
        self.push(label);
        self.push(Buffer::new().format(n).as_bytes());
    }
}

// Writes "stations N ties M" and the end of the line at the start of the area; how many bytes that is. Part by part, for the reason
// that stands at `push_labelled`.
#[tactic(auto, using(crate::proofs::Texts::few_digits))]
pub(crate) fn write_accepted(out: &mut [u8], stations: usize, ties: usize) -> usize
    requires { 64 ≤ length out.old }
    ensures { Wrote (accepted_line stations ties) out.old out.new result }
{
    let mut text = Text::at_start(out);
    text.push_labelled(b"stations ", stations);
    text.push_labelled(b" ties ", ties);
    text.push(b"\n");
    text.len()
}

// Writes what `{}` prints of the fault, "refused NUMBER line LINE byte BYTE", and the end of the line at the start of the area; how many
// bytes that is. Part by part, for the reason that stands at `push_labelled`.
#[tactic(auto, using(crate::proofs::Texts::few_digits))]
fn write_fault(out: &mut [u8], fault: BookFault) -> usize
    requires { 96 ≤ length out.old }
    ensures { Wrote (fault_line (fault_of fault)) out.old out.new result }
{
    let line = fault.line();
    let byte = fault.byte();
    let mut text = Text::at_start(out);
    text.push_labelled(b"refused ", fault.number() as usize);
    text.push_labelled(b" line ", line);
    text.push_labelled(b" byte ", byte);
    text.push(b"\n");
    text.len()
}

// Writes the line of a book's fault at the start of the area, or passes on the store's refusal.
pub(crate) fn write_error(out: &mut [u8], error: ReadError) -> Result<usize, Refusal>
    requires { 96 ≤ length out.old }
    ensures { Explains error out.old out.new result }
{
    match error {
        ReadError::Book(fault) => Ok(write_fault(out, fault)),
        ReadError::Store(refusal) => Err(refusal),
    }
}
