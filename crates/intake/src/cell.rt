//! A configured cell.

ghost use Rattle.std.specs.Prelude.{◌≡◌, ◌≤◌, length};
ghost use Rattle.families.specs.Laws.{meant};
ghost use Rattle.intake.specs.Networks.{cell_bit};
ghost use Rattle.intake.specs.Views.{Holds, cell_of};

use crate::signals::Signals;
use families::family::CellFamily;

/// The byte of a pin that is not used.
pub const UNUSED: u8 = 0xFF;

/// A cell: the signals at its pins, and its configuration. A family uses the front of both.
#[derive(Clone, Copy)]
pub struct Cell {
    // Kept: how much of both is used is the family's to say, and pins() and config() give the whole arrays.
    pins: [u8; 5],
    config: [u8; 16],
}

impl Cell {
    /// The cell with these pins, and this configuration.
    pub(crate) fn new(pins: &[u8], config: &[u8]) -> Cell
        requires few { length pins.now ≤ 5 }
        requires small { length config.now ≤ 16 }
        ensures { Holds pins.now config.now result }
    {
        let mut cell = Cell {
            pins: [UNUSED; 5],
            config: [0; 16],
        };
        cell.pins[0..pins.len()].copy_from_slice(pins);
        cell.config[0..config.len()].copy_from_slice(config);
        cell
    }

    /// The signals at the pins, with room for five.
    pub fn pins(&self) -> &[u8; 5]
        ensures { result.now ≡ self.now.pins }
    {
        &self.pins
    }

    /// The configuration bytes, with room for sixteen.
    pub fn config(&self) -> &[u8; 16]
        ensures { result.now ≡ self.now.config }
    {
        &self.config
    }

    /// The bit that the cell yields in a family.
    pub(crate) fn bit<F: CellFamily>(&self, family: &F, signals: &Signals) -> bool
        ensures { result ≡ cell_bit (meant (F.CellFamily.size family.now) (F.CellFamily.pins family.now) (F.CellFamily.reads family.now)) signals.now (cell_of (F.CellFamily.pins family.now) (F.CellFamily.size family.now) self.now) }
    {
        let e = signals.assignment(&self.pins[..family.pins()]);
        family.read(&self.config[..family.bytes()], e)
    }
}
