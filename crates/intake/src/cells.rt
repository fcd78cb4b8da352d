//! The cells of a network.

ghost use Rattle.std.specs.Prelude.{◌≡◌, ◌<◌, ◌≤◌, [], ◌∷◌, ◌++◌, length};

use crate::cell::Cell;
use rows::Row;

/// The number of inputs of a network, and its cells, of which there are at most 48.
#[derive(Clone, Copy)]
pub struct Cells {
    inputs: usize,
    cells: Row<Cell, 48>,
}

impl Cells {
    ghost use Rattle.intake.specs.Views.{listed};

    /// No cells, in a network of so many inputs.
    pub fn new(inputs: usize) -> Cells
        ensures cells { listed result ≡ [] }
        ensures inputs { result.inputs ≡ inputs }
    {
        Cells {
            inputs,
            cells: Row::new(Cell::new(&[], &[])),
        }
    }

    /// How many inputs the network has.
    pub fn inputs(&self) -> usize
        ensures { result ≡ self.now.inputs }
    {
        self.inputs
    }

    /// The cells, the closing one last.
    pub fn as_slice(&self) -> &[Cell]
        ensures value { result.now ≡ listed self.now }
        ensures few { length result.now ≤ 48 }
    {
        self.cells.as_slice()
    }

    /// Puts a cell behind the others.
    pub(crate) fn push(&mut self, cell: Cell)
        requires { length (listed self.old) < 48 }
        ensures cells { listed self.new ≡ listed self.old ++ (cell ∷ []) }
        ensures inputs { self.new.inputs ≡ self.old.inputs }
    {
        self.cells.push(cell).unwrap();
    }
}
