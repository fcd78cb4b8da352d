ghost use Rattle.std.specs.Prelude.{◌≡◌};
ghost use Rattle.charts.specs.Refusals.{refusal_number};

/// Why a chart refuses to take on another function.
#[derive(Clone, Copy, PartialEq, Eq, Debug)]
pub enum ChartRefusal {
    /// The arguments, codes or places named are not all there.
    OutOfRange = 11,
    /// The new function is not one that fits the chart.
    DoesNotFit = 20,
}

impl ChartRefusal {
    /// The refusal's number.
    pub fn number(&self) -> u8
        ensures { result ≡ refusal_number self.now }
    {
        *self as u8
    }
}
