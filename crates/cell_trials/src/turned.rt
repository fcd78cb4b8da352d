//! A family of one byte, its bits turned round.

ghost use Rattle.std.specs.Prelude.{◌≡◌};
ghost use Rattle.cell_trials.specs.Turned.{turned_byte, turned_packed, turned_reads, turned_laws};

use buffers::{WriteRefusal, put};
use families::family::CellFamily;
use families::tables::{entry_of, tabulate};

/// Cells of three pins and one byte, whose bit of weight 2^(7 - E) is the entry E.
#[derive(Clone, Copy, PartialEq, Eq, Debug, Default)]
pub struct Turned;

/// The first eight entries, turned round.
fn turned_byte(table: u32) -> u8
    ensures { result ≡ turned_byte table }
{
    tabulate(8, |e| entry_of(table, 7 - e)) as u8
}

impl CellFamily for Turned {
    ghost number = { λ _. 9 };

    ghost pins = { λ _. 3 };

    ghost size = { λ _. 1 };

    ghost packed = { λ _. turned_packed };

    ghost reads = { λ _. turned_reads };

    ghost laws = { turned_laws };

    fn number(&self) -> u8 {
        9
    }

    fn pins(&self) -> usize {
        3
    }

    fn bytes(&self) -> usize {
        1
    }

    fn pack(&self, table: u32, out: &mut [u8]) -> Result<(), WriteRefusal> {
        put(&[turned_byte(table)], out)
    }

    fn read(&self, bytes: &[u8], e: usize) -> bool {
        match bytes {
            [byte] => e < 8 && entry_of(u32::from(*byte), 7 - e),
            _ => false,
        }
    }
}
