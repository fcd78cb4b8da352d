//! Swaps.

ghost use Rattle.std.specs.Prelude.{◌≡◌, ◌+◌, ◌<◌};
ghost use Rattle.std.specs.List.{swap};
ghost use Rattle.design.specs.Designs.{done_answer, SwapCall};

use super::design::Design;
use charts::Chart;
use families::family::CellFamily;
use mapping::refusal::Refusal;
use rules::rule::CodeRule;

/// Exchanges the signals at `p` and `p` + 1.
fn exchange(live: &mut [u8; 16], p: usize)
    requires { p + 1 < 16 }
    ensures { live.new ≡ swap live.old p (p + 1) }
{
    live.swap(p, p + 1);
}

impl<C: Chart, R: CodeRule, F: CellFamily> Design<C, R, F> {
    /// Exchanges the live signals at `p` and `p` + 1. Checks in order: closed, out of range, does not fit.
    pub fn swap(&mut self, p: usize) -> Result<(), Refusal>
        ensures { SwapCall C.Chart R.CodeRule F.CellFamily self.old p (done_answer result) self.new }
    {
        if self.netlist.closed {
            return Err(Refusal::Closed);
        }
        self.chart.swap(p)?;
        exchange(&mut self.live, p);
        Ok(())
    }
}
