ghost use Rattle.std.specs.Prelude.{◌≡◌, ℕ, Bool, Decides};
ghost use Rattle.functions.specs.Functions.{Fn, bit};
ghost use Rattle.functions.specs.Classes.{same_fn};
ghost use Rattle.charts.specs.Laws.{Laws};
ghost use Rattle.charts.specs.Changes.{IsInRange, Swap, Recode};

use super::refusal::ChartRefusal;
use bits::power;

/// A Boolean function of at most 16 arguments, as places that are stepped through from the root.
///
/// A place means a column at each depth, a function of the arguments from that depth on.
/// Every method answers for every place and depth: a place that the chart lacks at a depth means the
/// zero column, or what a negation makes of it, and a depth above the number of arguments counts as
/// that number.
pub trait Chart {
    /// Where one can be in the chart.
    type Place: Copy;

    /// How many arguments there are.
    ghost arity: { Self → ℕ };

    /// What a place means at a depth.
    ghost column: { Self → ℕ → Self.Place → Fn };

    /// The place of the whole function.
    ghost root: { Self → Self.Place };

    /// Where a value of the argument at a depth leads from a place.
    ghost next: { Self → ℕ → Self.Place → Bool → Self.Place };

    /// The functions that the chart can take on.
    ghost fits: { Self → Fn → Type 0 };

    /// What these owe one another.
    ghost laws: { Laws arity column next };

    /// The number of arguments.
    fn count(&self) -> usize
        ensures { result ≡ arity self.now };

    /// The root.
    fn top(&self) -> Self::Place
        ensures { result ≡ root self.now };

    /// The place that `value` for the argument at `depth` leads to.
    fn step(&self, depth: usize, place: Self::Place, value: bool) -> Self::Place
        ensures { result ≡ next self.now depth place value };

    /// Whether two places mean the same column at `depth`.
    fn same(&self, depth: usize, a: Self::Place, b: Self::Place) -> bool
        ensures { result ≡ same_fn (column self.now depth a) (column self.now depth b) };

    /// The bit that a place means once every argument has its value.
    fn end(&self, place: Self::Place) -> bool
        ensures { column self.now (arity self.now) place ≡ bit result };

    /// Exchanges the arguments `p` and `p` + 1.
    fn swap(&mut self, p: usize) -> Result<(), ChartRefusal>
        ensures { Swap arity column root fits p self.old self.new result };

    /// Replaces the first `bound` arguments by `codes`: the code that these make chooses the column of its class.
    fn recode(&mut self, recoding: &Recoding<Self::Place>) -> Result<(), ChartRefusal>
        ensures { Recode arity column root fits recoding.now.bound recoding.now.codes recoding.now.places.now recoding.now.class_of.now self.old self.new result };
}

/// Another code for the first arguments of a function.
#[derive(Clone, Copy)]
pub struct Recoding<'a, P> {
    /// How many of the first arguments are replaced.
    pub bound: usize,
    /// How many arguments, the bits of the code, take their place.
    pub codes: usize,
    /// The place of each class at depth `bound`.
    pub places: &'a [P],
    /// The class of each code.
    pub class_of: &'a [usize],
}

impl<'a, P> Recoding<'a, P> {
    /// Whether a function of `m` arguments can be recoded so.
    pub fn in_range(&self, m: usize) -> bool
        ensures { Decides result (IsInRange m self.now) }
    {
        let (b, j) = (self.bound, self.codes);
        if b > m || j > 4 || m - b > 16 - j || self.class_of.len() < power(j) {
            return false;
        }
        self.class_of[..power(j)]
            .iter()
            .all(|&class| class < self.places.len())
    }
}
