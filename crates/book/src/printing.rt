// A fault as text.
ghost use Rattle.std.specs.Prelude.{Some};
ghost use Rattle.book.specs.Faults.{fault_of};
ghost use Rattle.book.specs.Printing.{fault_text};

use crate::faults::BookFault;
use std::error::Error;
use std::fmt;

// The report's line of a refused book, without the end of the line.
impl fmt::Display for BookFault {
    ghost output = { λ fault. Some (fault_text (fault_of fault)) };

    fn fmt<W: fmt::Write>(&self, f: &mut fmt::Formatter<W>) -> fmt::Result {
        let line = self.line();
        let byte = self.byte();
        write!(f, "refused {} line {line} byte {byte}", self.number())
    }
}

impl Error for BookFault {}
