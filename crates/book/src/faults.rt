// What can be wrong with a field book: the fault of a word, of a line and of the book.
ghost use Rattle.std.specs.Prelude.{◌≡◌};
ghost use Rattle.book.specs.Faults.{spot_at, word_spot, line_spot, fault_of, word_in_line, in_book};

// Where a fault lies.
#[derive(Clone, Copy, Debug, PartialEq, Eq, Hash)]
pub enum Layer {
    Word,
    Line,
    Book,
}

// What is wrong, by its number, and at which byte of the book, from 0.
#[derive(Clone, Copy, Debug, PartialEq, Eq, Hash)]
pub(crate) struct Spot {
    layer: Layer,
    number: u8,
    byte: usize,
}

impl Spot {
    // The fault of that layer and number at that byte.
    fn new(layer: Layer, number: u8, byte: usize) -> Spot
        ensures { result ≡ spot_at layer number byte }
    {
        Spot {
            layer,
            number,
            byte,
        }
    }
}

// The same with the line, from 1.
#[derive(Clone, Copy, Debug, PartialEq, Eq, Hash)]
pub(crate) struct Fault {
    spot: Spot,
    line: usize,
}

// A name above 12 bytes, at its first byte, or a byte that a name may not hold, at that byte.
#[derive(Clone, Copy, Debug, PartialEq, Eq, Hash)]
pub enum WordFault {
    TooLong { at: usize },
    BadByte { at: usize },
}

impl WordFault {
    // The fault's number, 24 or 25, and its byte.
    fn spot(self) -> Spot
        ensures { result ≡ word_spot self }
    {
        match self {
            WordFault::TooLong { at } => Spot::new(Layer::Word, 24, at),
            WordFault::BadByte { at } => Spot::new(Layer::Word, 25, at),
        }
    }
}

// No byte 10, a first word that is neither S nor T, or not as many words as that asks for, at the line's start; or a word's fault.
#[derive(Clone, Copy, Debug, PartialEq, Eq, Hash)]
pub enum LineFault {
    NoNewline { at: usize },
    UnknownKind { at: usize },
    WordCount { at: usize },
    Word(WordFault),
}

impl LineFault {
    // The fault's number, 21 to 25, its byte, and whether it is the line's or a word's.
    fn spot(self) -> Spot
        ensures { result ≡ line_spot self }
    {
        match self {
            LineFault::NoNewline { at } => Spot::new(Layer::Line, 21, at),
            LineFault::UnknownKind { at } => Spot::new(Layer::Line, 22, at),
            LineFault::WordCount { at } => Spot::new(Layer::Line, 23, at),
            LineFault::Word(fault) => fault.spot(),
        }
    }
}

impl From<WordFault> for LineFault {
    ghost from_gives = { λ w l. l ≡ word_in_line w };

    fn from(f: WordFault) -> LineFault {
        LineFault::Word(f)
    }
}

// A line's fault with the line's number, from 1. That `?` goes from layer to layer is a form that the project prescribes.
#[derive(Clone, Copy, Debug, PartialEq, Eq, Hash)]
pub struct FaultInLine {
    pub fault: LineFault,
    pub line: usize,
}

// What is wrong with the book as a whole, or the first fault of a line.
#[derive(Clone, Copy, Debug, PartialEq, Eq, Hash)]
pub enum BookFault {
    TooLarge { size: usize },
    Line { fault: LineFault, line: usize },
    NameGiven { at: usize, line: usize },
    NameUnknown { at: usize, line: usize },
    TieToItself { at: usize, line: usize },
    TooManyStations { at: usize, line: usize },
    NoStation { size: usize },
}

impl BookFault {
    // The fault's number, 20 to 30, its layer, its line and its byte: the one table of them.
    fn fault(self) -> Fault
        ensures { result ≡ fault_of self }
    {
        let (number, byte, line) = match self {
            BookFault::Line { fault, line } => {
                let spot = fault.spot();
                return Fault { spot, line };
            }
            BookFault::TooLarge { size } => (20, size, 0),
            BookFault::NameGiven { at, line } => (26, at, line),
            BookFault::NameUnknown { at, line } => (27, at, line),
            BookFault::TieToItself { at, line } => (28, at, line),
            BookFault::TooManyStations { at, line } => (29, at, line),
            BookFault::NoStation { size } => (30, size, 0),
        };
        let spot = Spot::new(Layer::Book, number, byte);
        Fault { spot, line }
    }

    // The fault's number: 20 to 30.
    pub fn number(&self) -> u8
        ensures { result ≡ (fault_of self.now).spot.number }
    {
        self.fault().spot.number
    }

    // The book, a line, or a word.
    pub fn layer(&self) -> Layer
        ensures { result ≡ (fault_of self.now).spot.layer }
    {
        self.fault().spot.layer
    }

    // The faulty line, from 1, or 0 where the fault is in no line.
    pub fn line(&self) -> usize
        ensures { result ≡ (fault_of self.now).line }
    {
        self.fault().line
    }

    // The byte of the book where the fault is, from 0, or the book's length where it is in no line.
    pub fn byte(&self) -> usize
        ensures { result ≡ (fault_of self.now).spot.byte }
    {
        self.fault().spot.byte
    }
}

impl From<FaultInLine> for BookFault {
    ghost from_gives = { λ n b. b ≡ in_book n.fault n.line };

    fn from(f: FaultInLine) -> BookFault {
        BookFault::Line {
            fault: f.fault,
            line: f.line,
        }
    }
}
