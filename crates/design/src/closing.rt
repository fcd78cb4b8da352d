//! Closing a design.

ghost use Rattle.design.specs.Designs.{done_answer, CloseCall};

use super::cell::Cell;
use super::design::Design;
use super::splitting::first_signals;
use super::tables::function_table;
use charts::Chart;
use families::family::CellFamily;
use mapping::refusal::Refusal;
use rules::rule::CodeRule;

impl<C: Chart, R: CodeRule, F: CellFamily> Design<C, R, F> {
    /// Adds the closing cell, on all live signals, with the function left as its table. Checks in order: closed, too wide.
    pub fn close(&mut self) -> Result<(), Refusal>
        ensures { CloseCall C.Chart R.CodeRule F.CellFamily self.old (done_answer result) self.new }
    {
        if self.netlist.closed {
            return Err(Refusal::Closed);
        }
        let m = self.chart.count();
        if m > self.family.pins() {
            return Err(Refusal::TooWide);
        }
        let pins = first_signals(&self.live, m);
        let table = function_table(&self.chart);
        self.netlist.close(Cell { pins, table });
        Ok(())
    }
}
