ghost use Rattle.std.specs.Prelude.{◌≡◌, take};
ghost use Rattle.charts.specs.ClassLists.{Found, Noted};

use super::chart::Chart;

/// Where among the places the first stands that means what `place` means.
pub fn find<C: Chart>(
    chart: &C,
    depth: usize,
    places: &[C::Place],
    place: C::Place,
) -> Option<usize>
    ensures { Found (C.Chart.column chart.now depth) place places.now result }
{
    places
        .iter()
        .position(|&other| chart.same(depth, other, place))
}

/// A list of places, one for each class, in a strip that was lent: the first `count` of it are the list.
// Kept: no heap here, so the list is a lent strip with its length beside.
#[derive(Drop)]
pub struct ClassList<'a, P> {
    places: &'a mut [P],
    count: usize,
}

impl<'a, P: Copy> ClassList<'a, P> {
    /// The empty list in the strip.
    pub fn new(places: &'a mut [P]) -> Self
        ensures lender { result.places.ghost_name ≡ places.entry.ghost_name }
        ensures strip { result.places.now ≡ places.old }
        ensures count { result.count ≡ 0 }
    {
        ClassList { places, count: 0 }
    }

    /// How many classes there are.
    pub fn size(&self) -> usize
        ensures { result ≡ self.now.count }
    {
        self.count
    }

    /// The number of the class of `place`, if it is in the list.
    pub fn class_of<C: Chart<Place = P>>(&self, chart: &C, depth: usize, place: P) -> Option<usize>
        ensures { Found (C.Chart.column chart.now depth) place (take self.now.count self.now.places.now) result }
    {
        let count = self.count.min(self.places.len());
        find(chart, depth, &self.places[..count], place)
    }

    /// The number of the class of `place`, which joins the list if its class is new: none if there is no room for it.
    pub fn note<C: Chart<Place = P>>(&mut self, chart: &C, depth: usize, place: P) -> Option<usize>
        ensures lender { self.new.places.ghost_name ≡ self.old.places.ghost_name }
        ensures noted { Noted (C.Chart.column chart.now depth) place self.old.count self.old.places.now self.new.count self.new.places.now result }
    {
        if let Some(class) = self.class_of(chart, depth, place) {
            return Some(class);
        }
        let n = self.count;
        if n >= self.places.len() {
            return None;
        }
        self.places[n] = place;
        self.count = n + 1;
        Some(n)
    }
}
