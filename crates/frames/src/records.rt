//! The frame at which a reader stands, as a record of any kind or of one kind, and the end of the text.

ghost use Rattle.std.specs.Prelude.{◌≡◌, [], length, IfSome, IfOk};
ghost use Rattle.frames.specs.Outcome.{body, outcome};
ghost use Rattle.frames.specs.Pages.{ending, ReadsPage};
ghost use Rattle.frames.specs.Reading.{left, Moved};
ghost use Rattle.frames.specs.Records.{answered, anything, due};

use crate::faults::{FrameFault, PageFault, RecordFault};
use crate::frame::{Form, Frame};
use crate::kinds::Kind;
use crate::reader::FrameReader;

/// The next frame, of whatever kind; none at the end of the text.
pub fn read_any(reader: &mut FrameReader) -> Result<Option<Frame>, RecordFault>
    ensures answer { answered body result ≡ anything (left reader.old) reader.old.line }
    ensures moved { Moved reader.old reader.new }
{
    Ok(reader.next()?)
}

// Kept: `Moved` tells of the reader before and after a call, which no fact of its type can.
/// The next frame, where only one of this kind and byte count is due; none at the end of the text.
pub fn read_due(
    reader: &mut FrameReader,
    kind: Kind,
    len: usize,
) -> Result<Option<Frame>, FrameFault>
    ensures answer { outcome result ≡ due kind len (left reader.old) reader.old.line }
    ensures long { IfOk result (λ o. IfSome o (λ f. length (body f) ≡ len)) }
    ensures moved { Moved reader.old reader.new }
{
    let kind = u8::from(kind);
    reader.due(&[Form { kind, len }])
}

/// The end of the text, with which a page ends; a frame that follows is a fault.
pub fn read_end(reader: &mut FrameReader) -> Result<(), PageFault>
    ensures ended { ReadsPage (λ _ _. Unit {0}) (ending (left reader.old) reader.old.line) [] reader.new.line result }
    ensures moved { Moved reader.old reader.new }
{
    let line = reader.line();
    match read_any(reader)? {
        None => Ok(()),
        Some(_) => Err(PageFault::Surplus { line }),
    }
}
