//! The values of a chart's function.

ghost use Rattle.std.specs.Prelude.{◌≡◌, ◌^◌, ◌≤◌};
ghost use Rattle.functions.specs.Functions.{value};
ghost use Rattle.functions.specs.Words.{bits};
ghost use Rattle.families.specs.Tables.{tabled};
ghost use Rattle.charts.specs.Walks.{chart_function};

use bits::power;
use charts::{Chart, value_at};
use families::tables::tabulate;

// Kept: `power` gives no bound, and what calls this needs that there are at most 32.
/// How many assignments at most 5 signals have.
pub(crate) fn assignments(signals: usize) -> usize
    requires { signals ≤ 5 }
    ensures value { result ≡ 2 ^ signals }
    ensures bound { result ≤ 32 }
{
    power(signals)
}

/// The table of a chart's function of at most 5 arguments.
pub(crate) fn function_table<C: Chart>(chart: &C) -> u32
    requires { C.Chart.arity chart.now ≤ 5 }
    ensures { result ≡ tabled (2 ^ C.Chart.arity chart.now) (λ e. value (chart_function C.Chart chart.now) (bits (C.Chart.arity chart.now) e)) }
{
    tabulate(assignments(chart.count()), |e| value_at(chart, e))
}
