//! Splits.

ghost use Rattle.std.specs.Prelude.{◌≡◌, ◌+◌, ◌-◌, ◌<◌, ◌≤◌, ◌++◌, length, take, drop, Decides};
ghost use Rattle.std.specs.List.{range_with_len};
ghost use Rattle.mapping.specs.Answers.{Ranged};
ghost use Rattle.rows.specs.Rows.{items};
ghost use Rattle.design.specs.Cells.{cells_of, code_cells};
ghost use Rattle.design.specs.Designs.{split_answer, SplitCall};

use super::codes::{add_code_cells, class_numbers, code_classes};
use super::design::Design;
use super::netlist::Netlist;
use bits::power;
use charts::{Chart, Recoding, number_classes};
use families::family::CellFamily;
use mapping::refusal::Refusal;
use rows::Row;
use rules::rule::CodeRule;

/// The most cells that splits make.
const MOST: usize = 47;

/// The first `b` live signals.
pub(crate) fn first_signals(live: &[u8], b: usize) -> Row<u8, 5>
    requires { (b ≤ 5) × (b ≤ length live.now) }
    ensures { items result ≡ take b live.now }
{
    let mut pins = Row::new(0);
    pins.extend_from_slice(&live[..b]).unwrap();
    pins
}

/// The live signals after a split of the first `b`: `j` new cells, from the signal `first` on, and then the free signals.
fn live_after(live: &[u8], b: usize, j: usize, first: u8) -> [u8; 16]
    requires fewer { j < b }
    requires bound { (b ≤ 5) × (b ≤ length live.now) }
    requires few { length live.now ≤ 16 }
    requires cell { first ≤ 64 }
    ensures { take (length live.now - b + j) result ≡ range_with_len first j ++ drop b live.now }
{
    let mut after = [0; 16];
    for (i, signal) in after[..j].iter_mut().enumerate() {
        *signal = first + i as u8;
    }
    after[j..live.len() - b + j].copy_from_slice(&live[b..]);
    after
}

// Kept: the bound signals and their facts come from one caller and go to two callees, so that a struct of them is no plainer.
/// Adds the cells of a split of the first `b` live signals, which carry the codes of the classes with these numbers, and
/// gives the live signals after it.
fn put_codes<R: CodeRule>(
    netlist: &mut Netlist,
    rule: &R,
    live: &[u8],
    b: usize,
    j: usize,
    numbers: &Row<usize, 32>,
) -> [u8; 16]
    requires fewer { j < b }
    requires bound { (b ≤ 5) × (b ≤ length live.now) }
    requires few { length live.now ≤ 16 }
    requires room { length (cells_of netlist.old) + j ≤ 47 }
    ensures cells { cells_of netlist.new ≡ cells_of netlist.old ++ code_cells (R.CodeRule.code rule.now) j (take b live.now) (items numbers.now) j }
    ensures closed { netlist.new.closed ≡ netlist.old.closed }
    ensures live { take (length live.now - b + j) result ≡ range_with_len (16 + length (cells_of netlist.old)) j ++ drop b live.now }
{
    let first = 16 + netlist.count() as u8;
    let pins = first_signals(live, b);
    add_code_cells(netlist, rule, pins, j, numbers.as_slice());
    live_after(live, b, j, first)
}

/// What a split made: how many classes it told apart, and how many cells the design has now.
#[derive(Clone, Copy, PartialEq, Eq, Debug)]
pub struct SplitCounts {
    pub classes: usize,
    pub cells: usize,
}

impl<C: Chart, R: CodeRule, F: CellFamily> Design<C, R, F> {
    /// Whether the numbers of a split are in range.
    fn in_range(&self, b: usize, j: usize) -> bool
        ensures { Decides result (Ranged (F.CellFamily.pins self.now.family) (C.Chart.arity self.now.chart.below) b j) }
    {
        let pins = self.family.pins();
        let m = self.chart.count();
        b >= 1 && b <= pins && b <= m && j < b
    }

    /// Replaces the first `b` live signals by `j` new cells, which carry codes of the classes. Checks in order: closed,
    /// out of range, strip too short, too many classes, too many cells, does not fit. The strip takes the first place of
    /// each class. Answers the number of classes and the number of cells in the design.
    pub fn split(
        &mut self,
        b: usize,
        j: usize,
        strip: &mut [C::Place],
    ) -> Result<SplitCounts, Refusal>
        ensures { SplitCall C.Chart R.CodeRule F.CellFamily self.old b j strip.old strip.new (split_answer result) self.new }
    {
        if self.netlist.closed {
            return Err(Refusal::Closed);
        }
        if !self.in_range(b, j) {
            return Err(Refusal::OutOfRange);
        }
        let Some(classes) = number_classes(&self.chart, b, strip) else {
            return Err(Refusal::TooShort);
        };
        if classes > power(j) {
            return Err(Refusal::TooManyClasses { classes });
        }
        let cells = self.netlist.count() + j;
        if cells > MOST {
            return Err(Refusal::TooManyCells { classes });
        }
        let places = &strip[..classes];
        let numbers = class_numbers(&self.chart, b, places);
        let live = &self.live[..self.chart.count()];
        let recoding = Recoding {
            bound: b,
            codes: j,
            places,
            class_of: &code_classes(&self.rule, j, classes),
        };
        let Ok(()) = self.chart.recode(&recoding) else {
            return Err(Refusal::SplitDoesNotFit { classes });
        };
        self.live = put_codes(&mut self.netlist, &self.rule, live, b, j, &numbers);
        Ok(SplitCounts { classes, cells })
    }
}
