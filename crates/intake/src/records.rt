//! The records of a network page: its heading, and the frames of its cells.

ghost use Rattle.std.specs.Prelude.{◌≡◌, ◌≤◌, true, IfSome, IfOk};
ghost use Rattle.frames.specs.Reading.{left, Moved};
ghost use Rattle.frames.specs.Records.{answered};
ghost use Rattle.intake.specs.Page.{heading, signal, pinned, cell as cell_at};
ghost use Rattle.intake.specs.Views.{cell_of, heading_of};

use crate::cell::{Cell, UNUSED};
use frames::faults::RecordFault;
use frames::kinds::Kind;
use frames::reader::FrameReader;
use frames::records::read_due;

/// What a heading gives: how many inputs the network has, and how many cells.
#[derive(Clone, Copy)]
pub struct Heading {
    pub inputs: usize,
    pub count: usize,
}

/// What the cells of a page look like: how many inputs they may name, and how many pins and configuration bytes they have.
#[derive(Clone, Copy)]
pub struct Shape {
    pub inputs: usize,
    pub pins: usize,
    pub bytes: usize,
}

/// A shape that a cell has room for.
#[derive(Clone, Copy)]
pub(crate) struct CellShape {
    pub(crate) of: Shape,
    ghost few_pins: { of.pins ≤ 5 },
    ghost few_bytes: { of.bytes ≤ 16 },
}

/// The heading of a network page of the family with this number; none at the end of the text.
pub fn read_heading(reader: &mut FrameReader, number: u8) -> Result<Option<Heading>, RecordFault>
    ensures answer { answered heading_of result ≡ heading number (left reader.old) reader.old.line }
    ensures range { IfOk result (λ o. IfSome o (λ h. (h.inputs ≤ 16) × (h.count ≤ 48))) }
    ensures moved { Moved reader.old reader.new }
{
    let line = reader.line();
    let Some(frame) = read_due(reader, Kind::Network, 5)? else {
        return Ok(None);
    };
    let fields = frame.bytes();
    let inputs = usize::from(fields[2]);
    let count = usize::from(fields[3]);
    if fields[1] != number || inputs > 16 || !(1..=48).contains(&count) {
        return Err(RecordFault::OutOfRange { line });
    }
    Ok(Some(Heading { inputs, count }))
}

/// Whether a pin is an input below `inputs`, or one of the cells before.
fn is_signal(pin: u8, inputs: usize, before: usize) -> bool
    ensures { result ≡ signal inputs before pin }
{
    let signal = usize::from(pin);
    signal < inputs || signal >= 16 && signal - 16 < before
}

/// Whether pins are signals, and after them pins that are not used.
fn are_pins(pins: &[u8], inputs: usize, before: usize) -> bool
    ensures { result ≡ pinned inputs before true pins.now }
{
    // Kept: tried skip_while with all, and position with split_at and all; the proof did not close.
    let mut used = true;
    for pin in pins {
        if *pin == UNUSED {
            used = false;
        } else if !used || !is_signal(*pin, inputs, before) {
            return false;
        }
    }
    true
}

/// The next cell of a page, after `before` others; none at the end of the text.
pub(crate) fn read_cell(
    reader: &mut FrameReader,
    shape: CellShape,
    before: usize,
) -> Result<Option<Cell>, RecordFault>
    ensures answer { answered (cell_of shape.of.pins shape.of.bytes) result ≡ cell_at shape.of.inputs shape.of.pins shape.of.bytes before (left reader.old) reader.old.line }
    ensures moved { Moved reader.old reader.new }
{
    let line = reader.line();
    let len = shape.of.pins + shape.of.bytes + 2;
    let Some(frame) = read_due(reader, Kind::Cell, len)? else {
        return Ok(None);
    };
    let (pins, config) = frame.bytes()[1..len - 1].split_at(shape.of.pins);
    if !are_pins(pins, shape.of.inputs, before) {
        return Err(RecordFault::BadPin { line });
    }
    Ok(Some(Cell::new(pins, config)))
}
