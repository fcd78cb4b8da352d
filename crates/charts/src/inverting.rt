ghost use Rattle.std.specs.Prelude.{◌≡◌};
ghost use Rattle.functions.specs.Functions.{negated};
ghost use Rattle.charts.specs.InvertingLaws.{inverting_laws};

use super::chart::{Chart, Recoding};
use super::refusal::ChartRefusal;

/// The negation of what the chart below means.
#[derive(Drop)]
pub struct Inverting<C: Chart> {
    below: C,
}

impl<C: Chart> Inverting<C> {
    /// The inverting chart over `below`.
    pub fn new(below: C) -> Self
        ensures { result.below ≡ below }
    {
        Inverting { below }
    }

    /// The chart below.
    pub fn into_below(self) -> C
        ensures { result ≡ self.below }
    {
        let Inverting { below } = self;
        below
    }
}

impl<C: Chart> Chart for Inverting<C> {
    type Place = C::Place;

    ghost arity = { λ s. C.Chart.arity s.below };

    ghost column = { λ s d p. negated (C.Chart.column s.below d p) };

    ghost root = { λ s. C.Chart.root s.below };

    ghost next = { λ s. C.Chart.next s.below };

    ghost fits = { λ s f. C.Chart.fits s.below (negated f) };

    ghost laws = { inverting_laws (λ s. s.below) C.Chart.laws };

    fn count(&self) -> usize {
        self.below.count()
    }

    fn top(&self) -> C::Place {
        self.below.top()
    }

    fn step(&self, depth: usize, place: C::Place, value: bool) -> C::Place {
        self.below.step(depth, place, value)
    }

    fn same(&self, depth: usize, a: C::Place, b: C::Place) -> bool {
        self.below.same(depth, a, b)
    }

    fn end(&self, place: C::Place) -> bool {
        !self.below.end(place)
    }

    fn swap(&mut self, p: usize) -> Result<(), ChartRefusal> {
        self.below.swap(p)
    }

    fn recode(&mut self, recoding: &Recoding<C::Place>) -> Result<(), ChartRefusal> {
        self.below.recode(recoding)
    }
}
