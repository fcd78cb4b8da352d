//! The cells of a design.

ghost use Rattle.std.specs.Prelude.{◌≡◌, ◌+◌, ◌<◌, ◌≤◌, false, true, [], ◌∷◌, ◌++◌, length, if◌then◌else◌};
ghost use Rattle.intake.specs.Networks.{input_bits, yielded, last};
ghost use Rattle.mapping.specs.States.{yield, signals};
ghost use Rattle.rows.specs.Rows.{items};

use super::cell::Cell;
use intake::signals::Signals;
use rows::Row;

/// The cells of a design, of which the last is the closing one if the design is closed; while it is open, there is room for that one.
#[derive(Clone, Copy)]
pub(crate) struct Netlist {
    pub(crate) cells: Row<Cell, 48>,
    // Kept: a call on a closed design is refused when it is made, so that the state is a value and no type.
    pub(crate) closed: bool,
    ghost room: { length (items cells) + (if closed then 0 else 1) ≤ 48 },
}

impl Netlist {
    ghost use Rattle.design.specs.Cells.{seen_cell, cells_of};

    /// No cell, and open.
    pub(crate) fn empty() -> Netlist
        ensures cells { cells_of result ≡ [] }
        ensures still { result.closed ≡ false }
    {
        let blank = Cell {
            pins: Row::new(0),
            table: 0,
        };
        Netlist {
            cells: Row::new(blank),
            closed: false,
        }
    }

    /// How many cells there are.
    pub(crate) fn count(&self) -> usize
        ensures value { result ≡ length (cells_of self.now) }
        ensures few { result ≤ 48 }
    {
        self.cells.as_slice().len()
    }

    /// One cell more, which is not the closing one.
    pub(crate) fn add(&mut self, cell: Cell)
        requires { length (cells_of self.old) < 47 }
        ensures cells { cells_of self.new ≡ cells_of self.old ++ (seen_cell cell ∷ []) }
        ensures closed { self.new.closed ≡ self.old.closed }
    {
        self.cells.push(cell).unwrap();
    }

    /// The closing cell.
    pub(crate) fn close(&mut self, cell: Cell)
        requires { self.old.closed ≡ false }
        ensures cells { cells_of self.new ≡ cells_of self.old ++ (seen_cell cell ∷ []) }
        ensures closed { self.new.closed ≡ true }
    {
        self.cells.push(cell).unwrap();
        self.closed = true;
    }

    /// The values of all signals.
    pub(crate) fn signals(&self, inputs: u16) -> Signals
        ensures { result ≡ signals (input_bits inputs) (cells_of self.now) }
    {
        // Kept: one function for this and the intake's pin would take how a cell yields its bit, no plainer than this loop.
        let mut signals = Signals::of_inputs(inputs);
        for cell in self.cells.as_slice() {
            signals.push(cell.bit(&signals)).unwrap();
        }
        signals
    }

    /// The bit that the last cell yields: false where there is no cell.
    pub(crate) fn last_bit(&self, inputs: u16) -> bool
        ensures { result ≡ last (yielded yield (input_bits inputs) (cells_of self.now)) }
    {
        self.signals(inputs).closing()
    }
}
