//! A cell of a design.

ghost use Rattle.std.specs.Prelude.{◌≡◌};
ghost use Rattle.mapping.specs.States.{yield};

use families::tables::entry_of;
use intake::signals::Signals;
use rows::Row;

/// A cell: the signals at the pins that it uses, and its table, whose entry E is the bit of weight 2^E.
#[derive(Clone, Copy)]
pub struct Cell {
    pub(crate) pins: Row<u8, 5>,
    pub(crate) table: u32,
}

impl Cell {
    ghost use Rattle.design.specs.Cells.{seen_cell};

    /// The bit that the cell yields.
    pub(crate) fn bit(&self, signals: &Signals) -> bool
        ensures { result ≡ yield signals.now (seen_cell self.now) }
    {
        entry_of(self.table, signals.assignment(self.pins.as_slice()))
    }
}
