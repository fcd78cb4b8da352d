//! The family of two words that a byte joins.

ghost use Rattle.std.specs.Prelude.{◌≡◌};
ghost use Rattle.families.specs.Joined.{joined_packed, joined_reads};
ghost use Rattle.families.specs.JoinedLaws.{joined_laws};

use super::family::CellFamily;
use super::tables::entry_of;
use super::words::word_of;
use buffers::{WriteRefusal, put};

/// Cells of five pins and the words F and G, joined by the byte H.
#[derive(Clone, Copy, PartialEq, Eq, Debug, Default)]
pub struct Joined;

/// The bytes of F, G and H.
const BYTES: usize = 5;

/// The byte H that takes F's entry where the first pin is 0, and else G's.
const CHOICE: u8 = 0xCA;

/// The configuration for a table: F has the half where the first pin is 0, and G the other.
fn joined_bytes(table: u32) -> [u8; BYTES]
    ensures { result ≡ joined_packed table }
{
    let [g_high, g_low, f_high, f_low] = table.to_be_bytes();
    [f_high, f_low, g_high, g_low, CHOICE]
}

impl CellFamily for Joined {
    ghost number = { λ _. 5 };

    ghost pins = { λ _. 5 };

    ghost size = { λ _. 5 };

    ghost packed = { λ _. joined_packed };

    ghost reads = { λ _. joined_reads };

    ghost laws = { joined_laws };

    fn number(&self) -> u8 {
        5
    }

    fn pins(&self) -> usize {
        5
    }

    fn bytes(&self) -> usize {
        BYTES
    }

    fn pack(&self, table: u32, out: &mut [u8]) -> Result<(), WriteRefusal> {
        put(&joined_bytes(table), out)
    }

    fn read(&self, bytes: &[u8], e: usize) -> bool {
        let [f_high, f_low, g_high, g_low, choice] = bytes else {
            return false;
        };
        let f = entry_of(word_of(*f_high, *f_low), e % 16);
        let g = entry_of(word_of(*g_high, *g_low), e % 16);
        let place = 4 * (e / 16) + 2 * usize::from(g) + usize::from(f);
        e < 32 && entry_of(u32::from(*choice), place)
    }
}
