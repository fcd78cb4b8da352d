//! Writing the page of a closed design.

ghost use Rattle.std.specs.Prelude.{◌≡◌, ℕ, ◌≤◌, [], ◌∷◌, ◌++◌, length, take, replicate};
ghost use Rattle.frames.specs.Text.{sealed};
ghost use Rattle.frames.specs.Outcome.{body};
ghost use Rattle.families.specs.Widening.{widened_table};
ghost use Rattle.intake.specs.Written.{heading_frame, cell_frame};
ghost use Rattle.mapping.specs.Kept.{configured};
ghost use Rattle.rows.specs.Rows.{items};
ghost use Rattle.design.specs.Cells.{seen_cell};
ghost use Rattle.design.specs.Designs.{write_answer, WriteCall, network_seen};

use super::cell::Cell;
use super::design::Design;
use charts::Chart;
use families::family::CellFamily;
use families::tables::widened;
use frames::frame::Frame;
use frames::kinds::Kind;
use frames::writer::write_frames;
use intake::cell::UNUSED;
use mapping::refusal::Refusal;
use rows::Row;
use rules::rule::CodeRule;

/// The signals at the pins of a cell, with the mark at those that are not used.
#[tactic(auto, using(crate::proofs::Written::pins_padded, crate::proofs::Written::length_padded))]
fn pin_bytes(cell: &Cell) -> [u8; 5]
    ensures long { length result ≡ 5 }
    ensures pins { (k : ℕ) → k ≤ 5 → take k result ≡ take k ((seen_cell cell.now).pins ++ replicate k 255) }
{
    let mut bytes = [UNUSED; 5];
    let pins = cell.pins.as_slice();
    bytes[..pins.len()].copy_from_slice(pins);
    bytes
}

/// The table of a cell as one on all pins of its family.
fn full_table<F: CellFamily>(family: &F, cell: &Cell) -> u32
    ensures { result ≡ widened_table (F.CellFamily.pins family.now) (length (items cell.now.pins)) cell.now.table }
{
    widened(family.pins(), cell.pins.as_slice().len(), cell.table)
}

/// The configuration of a cell, in front of other bytes.
fn config_bytes<F: CellFamily>(family: &F, cell: &Cell) -> [u8; 16]
    ensures long { length result ≡ 16 }
    ensures config { take (F.CellFamily.size family.now) result ≡ (configured (F.CellFamily.pins family.now) (F.CellFamily.packed family.now) (seen_cell cell.now)).config }
{
    let mut bytes = [0u8; 16];
    let table = full_table(family, cell);
    let _ = family.pack(table, &mut bytes);
    bytes
}

// Kept: the frames of bit pages have their fields in one part, so that one function would have to join these first.
/// The frame of a cell with these pins and this configuration.
fn sealed_cell(pins: &[u8], config: &[u8]) -> Frame
    requires pins { length pins.now ≤ 5 }
    requires config { length config.now ≤ 16 }
    ensures { body result ≡ sealed (0x12 ∷ (pins.now ++ config.now)) }
{
    let mut content: Row<u8, 23> = Row::new(0);
    content.push(u8::from(Kind::Cell)).unwrap();
    content.extend_from_slice(pins).unwrap();
    content.extend_from_slice(config).unwrap();
    Frame::sealed(content.as_slice()).unwrap()
}

/// The frame of a cell.
fn frame_of<F: CellFamily>(family: &F, cell: &Cell) -> Frame
    ensures { body result ≡ cell_frame (configured (F.CellFamily.pins family.now) (F.CellFamily.packed family.now) (seen_cell cell.now)) }
{
    let pins = pin_bytes(cell);
    let config = config_bytes(family, cell);
    sealed_cell(&pins[..family.pins()], &config[..family.bytes()])
}

/// The content of a heading: the family's number, the number of inputs and that of cells.
fn heading_content(number: u8, inputs: u8, cells: u8) -> [u8; 4]
    ensures { result ≡ 0x11 ∷ number ∷ inputs ∷ cells ∷ [] }
{
    [u8::from(Kind::Network), number, inputs, cells]
}

impl<C: Chart, R: CodeRule, F: CellFamily> Design<C, R, F> {
    /// The heading of the page.
    fn heading(&self) -> Frame
        ensures { body result ≡ heading_frame (F.CellFamily.number self.now.family) (network_seen C.Chart R.CodeRule F.CellFamily self.now) }
    {
        let content = heading_content(
            self.family.number(),
            self.inputs,
            self.netlist.count() as u8,
        );
        Frame::sealed(&content).unwrap()
    }

    /// Writes the page of the network as lines over the front of a buffer, and answers how many bytes it takes. Checks in
    /// order: still open, buffer too short.
    pub fn write(&self, out: &mut [u8]) -> Result<usize, Refusal>
        ensures { WriteCall C.Chart R.CodeRule F.CellFamily self.now out.old out.new (write_answer result) }
    {
        if !self.netlist.closed {
            return Err(Refusal::StillOpen);
        }
        let heading = self.heading();
        let mut frames: Row<Frame, 49> = Row::new(heading);
        frames.push(heading).unwrap();
        for cell in self.netlist.cells.as_slice() {
            frames.push(frame_of(&self.family, cell)).unwrap();
        }
        Ok(write_frames(frames.as_slice(), out)?)
    }
}
