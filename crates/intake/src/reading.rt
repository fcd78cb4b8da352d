//! Reading the cells of a network page.

ghost use Rattle.std.specs.Prelude.{◌≡◌, ℕ, ◌≤◌, []};
ghost use Rattle.frames.specs.Pages.{ReadsPage};
ghost use Rattle.frames.specs.Reading.{left};
ghost use Rattle.intake.specs.Page.{cells_from, alone};
ghost use Rattle.intake.specs.Views.{network_of};

use crate::cells::Cells;
use crate::records::{CellShape, Shape, read_cell, read_heading};
use frames::faults::PageFault;
use frames::reader::FrameReader;
use frames::records::read_end;

/// Reads so many cells.
fn read_cells(reader: &mut FrameReader, shape: CellShape, count: usize) -> Result<Cells, PageFault>
    requires { count ≤ 48 }
    ensures { ReadsPage (λ w cs. w ≡ network_of shape.of.pins shape.of.bytes cs) (cells_from shape.of.inputs shape.of.pins shape.of.bytes count [] (left reader.old) reader.old.line) (left reader.new) reader.new.line result }
{
    let mut cells = Cells::new(shape.of.inputs);
    for before in 0..count {
        let line = reader.line();
        let cell = read_cell(reader, shape, before)?.ok_or(PageFault::Missing { line })?;
        cells.push(cell);
    }
    Ok(cells)
}

/// Reads the network page of a family, with which the text must end, by the family's number, pins and configuration bytes.
pub(crate) fn read_page(
    reader: &mut FrameReader,
    number: u8,
    pins: usize,
    bytes: usize,
) -> Result<Cells, PageFault>
    requires pins { pins ≤ 5 }
    requires bytes { bytes ≤ 16 }
    ensures { (line : ℕ) × ReadsPage (λ w cs. w ≡ network_of pins bytes cs) (alone number pins bytes (left reader.old) reader.old.line) [] line result }
{
    let line = reader.line();
    let heading = read_heading(reader, number)?.ok_or(PageFault::Missing { line })?;
    let of = Shape {
        inputs: heading.inputs,
        pins,
        bytes,
    };
    let cells = read_cells(reader, CellShape { of }, heading.count)?;
    read_end(reader)?;
    Ok(cells)
}
