//! The records of a node page: its heading, and its nodes.

ghost use Rattle.std.specs.Prelude.{◌≡◌, ◌+◌, ◌*◌, ◌<◌, true, length, IfSome, IfOk};
ghost use Rattle.frames.specs.Reading.{left, Moved};
ghost use Rattle.frames.specs.Records.{answered};
ghost use Rattle.nodes.specs.Drafts.{drafted};
ghost use Rattle.nodepages.specs.Page.{triple, fields, in_range, heading, next_node};

use frames::faults::RecordFault;
use frames::kinds::Kind;
use frames::reader::FrameReader;
use frames::records::read_due;
use nodes::{Draft, NodeFlaw};

/// The fields of a frame of a node page: a byte, and two numbers of two bytes.
#[derive(Clone, Copy)]
pub struct Triple {
    pub byte: u8,
    pub first: u16,
    pub second: u16,
}

/// The numbers in the heading of a node page: of arguments, of nodes, and of the root.
#[derive(Clone, Copy)]
pub struct Heading {
    pub arity: usize,
    pub count: usize,
    pub root: usize,
}

/// The fields of a frame of seven bytes.
fn triple_of(bytes: &[u8]) -> Triple
    requires { length bytes.now ≡ 7 }
    ensures { result ≡ triple bytes.now }
{
    Triple {
        byte: bytes[1],
        first: u16::from_be_bytes([bytes[2], bytes[3]]),
        second: u16::from_be_bytes([bytes[4], bytes[5]]),
    }
}

/// The fields of the next frame, which is due to be of this kind; none at the end of the text.
fn read_fields(reader: &mut FrameReader, kind: Kind) -> Result<Option<Triple>, RecordFault>
    ensures answer { answered (λ t. t) result ≡ fields kind (left reader.old) reader.old.line }
    ensures moved { Moved reader.old reader.new }
{
    let frame = read_due(reader, kind, 7)?;
    Ok(frame.map(|frame| triple_of(frame.bytes())))
}

impl Heading {
    /// Whether there are 1 to 16 arguments and at most 1,024 nodes, and the root is the last of these, or an end where
    /// there is none.
    fn in_range(&self) -> bool
        ensures { result ≡ in_range self.now }
    {
        if !(1..=16).contains(&self.arity) || self.count > 1024 {
            return false;
        }
        if self.count == 0 {
            self.root < 2
        } else {
            self.root == self.count + 1
        }
    }
}

/// The heading of a node page; none at the end of the text.
pub fn read_heading(reader: &mut FrameReader) -> Result<Option<Heading>, RecordFault>
    ensures answer { answered (λ h. h) result ≡ heading (left reader.old) reader.old.line }
    ensures range { IfOk result (λ o. IfSome o (λ h. in_range h ≡ true)) }
    ensures moved { Moved reader.old reader.new }
{
    let line = reader.line();
    let Some(fields) = read_fields(reader, Kind::NodePage)? else {
        return Ok(None);
    };
    let heading = Heading {
        arity: usize::from(fields.byte),
        count: usize::from(fields.first),
        root: usize::from(fields.second),
    };
    if !heading.in_range() {
        return Err(RecordFault::OutOfRange { line });
    }
    Ok(Some(heading))
}

/// Adds the node of the next frame to a draft that has room; none at the end of the text.
pub(crate) fn read_node(
    reader: &mut FrameReader,
    draft: &mut Draft,
) -> Result<Option<()>, RecordFault>
    requires { length (drafted draft.old) < 1024 }
    ensures answer { answered (λ _. drafted draft.new) result ≡ next_node draft.old.arity (drafted draft.old) (left reader.old) reader.old.line }
    ensures arity { draft.new.arity ≡ draft.old.arity }
    ensures moved { Moved reader.old reader.new }
{
    let line = reader.line();
    let Some(fields) = read_fields(reader, Kind::Node)? else {
        return Ok(None);
    };
    let node = draft.count() + 2;
    match draft.add(fields.byte, fields.first, fields.second) {
        Ok(()) => Ok(Some(())),
        Err(NodeFlaw::Misplaced) => Err(RecordFault::BadPlace { line, node }),
        Err(NodeFlaw::Repeated) => Err(RecordFault::Repeated { line, node }),
        Err(NodeFlaw::NoRoom) => Err(RecordFault::OutOfRange { line }),
    }
}
