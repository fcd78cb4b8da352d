//! Opening a design.

ghost use Rattle.std.specs.Prelude.{◌≡◌};
ghost use Rattle.std.specs.List.{range_with_len};
ghost use Rattle.design.specs.Designs.{Opened};

use super::design::Design;
use super::netlist::Netlist;
use charts::{Chart, Inverting};
use families::family::CellFamily;
use rules::rule::CodeRule;

/// The signals of the inputs, in order.
fn input_signals() -> [u8; 16]
    ensures { result ≡ range_with_len 0 16 }
{
    [0, 1, 2, 3, 4, 5, 6, 7, 8, 9, 10, 11, 12, 13, 14, 15]
}

impl<C: Chart, R: CodeRule, F: CellFamily> Design<C, R, F> {
    /// Opens a design with the function of a chart: live signal p is input p, and the inverting chart is laid over the chart.
    pub fn open(chart: C, rule: R, family: F) -> Self
        ensures { Opened C.Chart R.CodeRule F.CellFamily chart rule family result }
    {
        let inputs = chart.count() as u8;
        Design {
            chart: Inverting::new(chart),
            rule,
            family,
            inputs,
            live: input_signals(),
            netlist: Netlist::empty(),
        }
    }
}
