//! Networks of cells of a family.

ghost use Rattle.std.specs.Prelude.{◌≡◌, []};
ghost use Rattle.families.specs.Laws.{meant};
ghost use Rattle.intake.specs.Laws.{IntakeLaws};
ghost use Rattle.intake.specs.Networks.{input_bits, network_pin};
ghost use Rattle.intake.specs.Page.{intake as taking};
ghost use Rattle.intake.specs.Views.{network_of, listed, Loaded};

use crate::cell::Cell;
use crate::cells::Cells;
use crate::reading::read_page;
use crate::signals::Signals;
use families::family::CellFamily;
use frames::faults::PageFault;
use frames::reader::FrameReader;

/// A network of cells of a family.
#[derive(Drop)]
pub struct Network<F: CellFamily> {
    family: F,
    cells: Cells,
}

impl<F: CellFamily> Network<F> {
    /// A network with no inputs and no cells.
    pub fn new(family: F) -> Self
        ensures family { result.family ≡ family }
        ensures inputs { result.cells.inputs ≡ 0 }
        ensures cells { listed result.cells ≡ [] }
    {
        Network {
            family,
            cells: Cells::new(0),
        }
    }

    /// The family of the cells.
    pub fn family(&self) -> &F
        ensures { result.now ≡ self.now.family }
    {
        &self.family
    }

    /// The cells and the number of inputs.
    pub fn cells(&self) -> &Cells
        ensures { result.now ≡ self.now.cells }
    {
        &self.cells
    }

    /// Fills the network from a text that is a network page of its family and nothing else; on a fault it is as it was.
    fn fill(&mut self, text: &[u8]) -> Result<(), PageFault>
        ensures loaded { Loaded (F.CellFamily.pins self.old.family) (F.CellFamily.size self.old.family) (taking (F.CellFamily.number self.old.family) (F.CellFamily.pins self.old.family) (F.CellFamily.size self.old.family) text.now) self.old.cells self.new.cells result }
        ensures family { self.new.family ≡ self.old.family }
    {
        let mut reader = FrameReader::new(text);
        let number = self.family.number();
        let pins = self.family.pins();
        let bytes = self.family.bytes();
        let cells = read_page(&mut reader, number, pins, bytes)?;
        self.cells = cells;
        Ok(())
    }

    /// Takes in the network of a text that is a network page of the family and nothing else; on a fault the network is
    /// as it was. Every well-formed network has one such text.
    pub fn load(&mut self, text: &[u8]) -> Result<(), PageFault>
        ensures loaded { Loaded (F.CellFamily.pins self.old.family) (F.CellFamily.size self.old.family) (taking (F.CellFamily.number self.old.family) (F.CellFamily.pins self.old.family) (F.CellFamily.size self.old.family) text.now) self.old.cells self.new.cells result }
        ensures family { self.new.family ≡ self.old.family }
        ensures laws { IntakeLaws (F.CellFamily.number self.old.family) (F.CellFamily.pins self.old.family) (F.CellFamily.size self.old.family) }
    {
        self.fill(text)
    }

    /// The bit at the pin, where input i has the bit of weight 2^i: the negation of the closing cell.
    pub fn pin(&self, inputs: u16) -> bool
        ensures { result ≡ network_pin (meant (F.CellFamily.size self.now.family) (F.CellFamily.pins self.now.family) (F.CellFamily.reads self.now.family)) (network_of (F.CellFamily.pins self.now.family) (F.CellFamily.size self.now.family) self.now.cells) (input_bits inputs) }
    {
        // Kept: one function for this and a netlist's signals would take how a cell yields its bit, no plainer than this loop.
        let mut signals = Signals::of_inputs(inputs);
        for cell in self.cells.as_slice() {
            signals.push(cell.bit(&self.family, &signals)).unwrap();
        }
        !signals.closing()
    }
}
