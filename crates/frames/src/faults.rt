//! What can be wrong with a text of frames, layer by layer. Each layer keeps the fault of the one below it whole.

ghost use Rattle.std.specs.Prelude.{◌≡◌, Some};
ghost use Rattle.frames.specs.Numbers.{frame_numbers, record_numbers, page_numbers};
ghost use Rattle.frames.specs.declared.faults.PageFault.TheVariants.{Record};
ghost use Rattle.frames.specs.declared.faults.RecordFault.TheVariants.{Frame};
ghost use Rattle.frames.specs.Words.{numbers_text, flaw_words, frame_words, record_words, page_words};

use std::fmt;

/// A fault in numbers: the layer that found it, its cause, its line (from 1) and its node; 0 for no line or node.
// Kept: these are the fields of the product's fault answers, where 0 stands for no line and no node.
#[derive(Clone, Copy, PartialEq, Eq, Debug)]
pub struct FaultNumbers {
    pub layer: u8,
    pub cause: u8,
    pub line: usize,
    pub node: usize,
}

/// Why the text of a line is not that of 2 to 24 bytes.
#[derive(Clone, Copy, PartialEq, Eq, Debug)]
pub enum Flaw {
    /// The text ends before the line does.
    NoEnd,
    /// The character at this column, from 1, is no digit.
    Character { column: usize },
    /// A digit is left over.
    OddDigits,
    /// This many bytes are too few or too many.
    Length { bytes: usize },
}

/// What is wrong with a line, by itself or for the place where it stands.
#[derive(Clone, Copy, PartialEq, Eq, Debug)]
pub enum FrameFault {
    /// It is not the text of 2 to 24 bytes.
    Malformed { line: usize, flaw: Flaw },
    /// The sum is wrong; with `right` as its last byte it would be right.
    WrongSum { line: usize, right: u8 },
    /// Another kind is due, or another byte count.
    NotDue { line: usize },
}

/// What is wrong with the fields of a frame.
#[derive(Clone, Copy, PartialEq, Eq, Debug)]
pub enum RecordFault {
    /// The line is wrong.
    Frame(FrameFault),
    /// A field of a heading or of a job frame is out of range, or the root is wrong.
    OutOfRange { line: usize },
    // Kept: the node is a field of the product's fault answers, where 0 stands for none.
    /// A node's place or child is bad, or a spare bit of a table is set (then the node is 0).
    BadPlace { line: usize, node: usize },
    /// A node has equal children, or repeats an earlier one.
    Repeated { line: usize, node: usize },
    /// A pin is no input, earlier cell or unused mark, or is used after an unused one.
    BadPin { line: usize },
}

/// What is wrong with the frames of a page together.
#[derive(Clone, Copy, PartialEq, Eq, Debug)]
pub enum PageFault {
    /// A frame is wrong.
    Record(RecordFault),
    /// A node, not the last, that no later one names.
    Unnamed { line: usize, node: usize },
    /// The text ends before the frames that are due.
    Missing { line: usize },
    /// A good frame follows all that are due.
    Surplus { line: usize },
    /// A job has more bytes than a job may have.
    TooLong,
}

impl From<FrameFault> for RecordFault {
    ghost from_gives = { λ f r. r ≡ Frame f };

    fn from(fault: FrameFault) -> RecordFault {
        RecordFault::Frame(fault)
    }
}

impl From<RecordFault> for PageFault {
    ghost from_gives = { λ f r. r ≡ Record f };

    fn from(fault: RecordFault) -> PageFault {
        PageFault::Record(fault)
    }
}

impl FrameFault {
    // Kept: `From` would say the same in as many lines, under a name that tells less.
    /// The fault in numbers: layer 1, causes 1 to 3.
    pub fn numbers(&self) -> FaultNumbers
        ensures { result ≡ frame_numbers self.now }
    {
        let (cause, line) = match self {
            FrameFault::Malformed { line, .. } => (1, *line),
            FrameFault::WrongSum { line, .. } => (2, *line),
            FrameFault::NotDue { line } => (3, *line),
        };
        FaultNumbers {
            layer: 1,
            cause,
            line,
            node: 0,
        }
    }
}

impl RecordFault {
    // Kept: `From` would say the same in as many lines, under a name that tells less.
    /// The fault in numbers: layer 2, causes 4, 5, 6 and 9, or those of the line below it.
    pub fn numbers(&self) -> FaultNumbers
        ensures { result ≡ record_numbers self.now }
    {
        let (cause, line, node) = match self {
            RecordFault::Frame(fault) => return fault.numbers(),
            RecordFault::OutOfRange { line } => (4, *line, 0),
            RecordFault::BadPlace { line, node } => (5, *line, *node),
            RecordFault::Repeated { line, node } => (6, *line, *node),
            RecordFault::BadPin { line } => (9, *line, 0),
        };
        FaultNumbers {
            layer: 2,
            cause,
            line,
            node,
        }
    }
}

impl PageFault {
    // Kept: `From` would say the same in as many lines, under a name that tells less.
    /// The fault in numbers: layer 3, causes 7 and 8, or those of the record below it.
    pub fn numbers(&self) -> FaultNumbers
        ensures { result ≡ page_numbers self.now }
    {
        let (cause, line, node) = match self {
            PageFault::Record(fault) => return fault.numbers(),
            PageFault::Unnamed { line, node } => (7, *line, *node),
            PageFault::Missing { line } => (8, *line, 0),
            PageFault::Surplus { line } => (8, *line, 0),
            PageFault::TooLong => (8, 0, 0),
        };
        FaultNumbers {
            layer: 3,
            cause,
            line,
            node,
        }
    }
}

impl fmt::Display for FaultNumbers {
    ghost output = { λ n. Some (numbers_text n) };

    fn fmt<W: fmt::Write>(&self, f: &mut fmt::Formatter<W>) -> fmt::Result {
        let line = self.line;
        let layer = self.layer;
        let cause = self.cause;
        let node = self.node;
        write!(f, "line {line}: layer {layer}, cause {cause}")?;
        if node == 0 {
            return Ok(());
        }
        write!(f, ", node {node}")
    }
}

impl fmt::Display for Flaw {
    ghost output = { λ w. Some (flaw_words w) };

    fn fmt<W: fmt::Write>(&self, f: &mut fmt::Formatter<W>) -> fmt::Result {
        match self {
            Flaw::NoEnd => f.write_str("the line has no end"),
            Flaw::Character { column } => { write!(f, "character {column} is none of 0-9 and A-F") }
            Flaw::OddDigits => f.write_str("an odd number of digits"),
            Flaw::Length { bytes } => write!(f, "{bytes} bytes are not 2 to 24"),
        }
    }
}

impl fmt::Display for FrameFault {
    ghost output = { λ e. Some (frame_words e) };

    fn fmt<W: fmt::Write>(&self, f: &mut fmt::Formatter<W>) -> fmt::Result {
        match self {
            FrameFault::Malformed { flaw, .. } => write!(f, "{flaw}"),
            FrameFault::WrongSum { right, .. } => {
                let byte = *right;
                write!(f, "wrong sum, the last byte should be {byte:02X}")
            }
            FrameFault::NotDue { .. } => f.write_str("another kind is due, or another byte count"),
        }
    }
}

impl fmt::Display for RecordFault {
    ghost output = { λ e. Some (record_words e) };

    fn fmt<W: fmt::Write>(&self, f: &mut fmt::Formatter<W>) -> fmt::Result {
        match self {
            RecordFault::Frame(below) => write!(f, "{below}"),
            RecordFault::OutOfRange { .. } => {
                f.write_str("a field is out of range, or the root is wrong")
            }
            RecordFault::BadPlace { .. } => {
                f.write_str("a bad place or child, or a spare bit is set")
            }
            RecordFault::Repeated { .. } => f.write_str("equal children, or an earlier node again"),
            RecordFault::BadPin { .. } => {
                f.write_str("a pin is no input, earlier cell or FF, or is used after FF")
            }
        }
    }
}

impl fmt::Display for PageFault {
    ghost output = { λ e. Some (page_words e) };

    fn fmt<W: fmt::Write>(&self, f: &mut fmt::Formatter<W>) -> fmt::Result {
        match self {
            PageFault::Record(below) => write!(f, "{below}"),
            PageFault::Unnamed { .. } => f.write_str("no later node names this one"),
            PageFault::Missing { .. } => f.write_str("a frame is missing"),
            PageFault::Surplus { .. } => f.write_str("a frame follows all that are due"),
            PageFault::TooLong => f.write_str("the job has more than 32768 bytes"),
        }
    }
}
