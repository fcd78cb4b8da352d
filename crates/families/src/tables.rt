//! Tables of cells, and a table on few pins as one on more.

ghost use Rattle.std.specs.Prelude.{◌≡◌, ℕ, ◌^◌, ◌<◌, min, false, length, slice_index_or};
ghost use Rattle.families.specs.Tables.{entry_of, tabled, Tabulated};
ghost use Rattle.families.specs.Widening.{widened_table, WideningLaws};

use bits::{bit_of, power};

/// The entry `e` of a table: the bit of weight 2^`e` of its word.
pub fn entry_of(table: u32, e: usize) -> bool
    ensures { result ≡ entry_of table e }
{
    bit_of(u64::from(table), e)
}

/// The table of the first `count` entries, of which there are 32 at most, and 0 for the others.
#[tactic(auto, using(crate::proofs::TableEntries::next_fits))]
pub fn tabulate<F: Fn(usize) -> bool>(count: usize, entry: F) -> u32
    requires { (e : ℕ) → e < min count 32 → F.pre entry e }
    ensures made { Tabulated (F.post entry) (min count 32) result }
    ensures below { result < 2 ^ min count 32 }
{
    let mut table = 0;
    for e in 0..count.min(32) {
        table += u32::from(entry(e)) << e;
    }
    table
}

/// The table with the given entries, of which there are 32 at most, and 0 for the others.
#[tactic(auto, using(crate::proofs::TableEntries::tabulated_row))]
pub fn table_of(entries: &[bool]) -> u32
    ensures { result ≡ tabled (min (length entries.now) 32) (λ e. slice_index_or entries.now e false) }
{
    tabulate(entries.len(), |e| entries[e])
}

/// A table on `b` pins as one on `k`, of which the first `b` are used and the others do not matter.
/// More than 5 pins count as 5, and more used pins than there are as all of them.
#[tactic(auto, using(crate::proofs::TableEntries::widened_row))]
pub fn widened(k: usize, b: usize, table: u32) -> u32
    ensures { result ≡ widened_table k b table }
{
    let pins = k.min(5);
    let unused = pins.saturating_sub(b);
    tabulate(power(pins), |e| entry_of(table, e >> unused))
}

/// The pins of a widened table that are not used come last, and do not matter.
#[tactic(auto, using(crate::proofs::Assignments::widening_laws))]
pub fn widening_lawful()
    ensures { WideningLaws }
{}
