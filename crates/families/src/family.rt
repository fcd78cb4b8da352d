//! What a cell family is.

ghost use Rattle.std.specs.Prelude.{◌≡◌, ℕ, Bool, List};
ghost use Rattle.families.specs.Laws.{Laws, meant, ReadBack};
ghost use Rattle.buffers.specs.Written.{Written};

use buffers::WriteRefusal;

/// A family of cells, which are alike but for their configuration bytes.
pub trait CellFamily {
    /// The family's number.
    ghost number: { Self → ℕ };

    /// How many pins a cell has.
    ghost pins: { Self → ℕ };

    /// How many bytes configure a cell.
    ghost size: { Self → ℕ };

    /// The configuration for a table.
    ghost packed: { Self → ℕ → List ℕ };

    /// The bit that a configuration yields at a pin assignment.
    ghost reads: { Self → List ℕ → ℕ → Bool };

    /// What these owe one another.
    ghost laws: { Laws number pins size packed reads };

    /// The family's number.
    fn number(&self) -> u8
        ensures { result ≡ number self.now };

    /// The number of pins.
    fn pins(&self) -> usize
        ensures { result ≡ pins self.now };

    /// The number of configuration bytes.
    fn bytes(&self) -> usize
        ensures { result ≡ size self.now };

    /// Writes the configuration for `table` over the front of `out`. A buffer that is too short is refused, and stays as it was.
    fn pack(&self, table: u32, out: &mut [u8]) -> Result<(), WriteRefusal>
        ensures { Written (packed self.now table) out.old out.new result };

    /// The bit that `bytes` mean at the assignment `e`: false for a wrong byte count, or where there is no such assignment.
    fn read(&self, bytes: &[u8], e: usize) -> bool
        ensures { result ≡ meant (size self.now) (pins self.now) (reads self.now) bytes.now e };
}

/// A packed table means its entries, in every family.
#[tactic(auto, using(crate::proofs::ReadBack::read_back))]
pub fn packed_tables_read_back<F: CellFamily>()
    ensures { ReadBack F.CellFamily.pins F.CellFamily.size F.CellFamily.packed F.CellFamily.reads }
{}
