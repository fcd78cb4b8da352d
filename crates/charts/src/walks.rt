ghost use Rattle.std.specs.Prelude.{◌≡◌};
ghost use Rattle.functions.specs.Words.{bits};
ghost use Rattle.functions.specs.Functions.{under, value};
ghost use Rattle.charts.specs.Walks.{chart_function, reached};

use super::chart::Chart;
use bits::bit_of;

/// The place that the assignment number `a` of the first `b` arguments leads to.
#[tactic(auto, using(crate::proofs::Meanings::led_more))]
pub fn walk<C: Chart>(chart: &C, b: usize, a: usize) -> C::Place
    ensures place { result ≡ reached C.Chart chart.now b a }
    ensures means { C.Chart.column chart.now b result ≡ under (chart_function C.Chart chart.now) (bits b a) }
{
    let mut place = chart.top();
    for depth in 0..b.min(chart.count()) {
        place = chart.step(depth, place, bit_of(a as u64, b - (depth + 1)));
    }
    place
}

/// The value of a chart's function at the assignment number `a`.
#[tactic(auto, using(functions::proofs::Values::value_bit))]
pub fn value_at<C: Chart>(chart: &C, a: usize) -> bool
    ensures { result ≡ value (chart_function C.Chart chart.now) (bits (C.Chart.arity chart.now) a) }
{
    chart.end(walk(chart, chart.count(), a))
}
