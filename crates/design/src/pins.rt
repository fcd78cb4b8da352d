//! The bit at a design's pin.

ghost use Rattle.std.specs.Prelude.{◌≡◌};
ghost use Rattle.functions.specs.Functions.{value};
ghost use Rattle.mapping.specs.States.{values};
ghost use Rattle.mapping.specs.declared.answer.Answer.TheVariants.{Shows};
ghost use Rattle.design.specs.Designs.{left_of, seen, PinCall};

use super::design::Design;
use charts::Chart;
use families::family::CellFamily;
use intake::signals::Signals;
use rules::rule::CodeRule;

impl<C: Chart, R: CodeRule, F: CellFamily> Design<C, R, F> {
    /// The function left at the live signals, by the values of all signals.
    fn left_bit(&self, signals: &Signals) -> bool
        ensures { result ≡ value (left_of C.Chart R.CodeRule F.CellFamily self.now) (values signals.now (seen C.Chart R.CodeRule F.CellFamily self.now).live) }
    {
        let mut place = self.chart.top();
        for (depth, signal) in self.live[..self.chart.count()].iter().enumerate() {
            place = self.chart.step(depth, place, signals.value(*signal));
        }
        self.chart.end(place)
    }

    /// The bit at the pin, where input i has the bit of weight 2^i of `inputs`: the negation of the closing cell or, while
    /// the design is open, of the function left at the live signals.
    pub fn pin(&self, inputs: u16) -> bool
        ensures { PinCall C.Chart R.CodeRule F.CellFamily self.now inputs (Shows result) }
    {
        if self.netlist.closed {
            return !self.netlist.last_bit(inputs);
        }
        !self.left_bit(&self.netlist.signals(inputs))
    }
}
