ghost use Rattle.charts.specs.Numbering.{Numbers};

use super::chart::Chart;
use super::class_list::ClassList;
use super::walks::walk;
use bits::power;

/// How many classes the columns at the first `b` arguments have, numbered by first appearance.
/// The strip then begins with the place of each class, that of its first bound assignment.
/// None, and the strip untouched, if there are fewer arguments or the strip has fewer than 2^`b` entries.
pub fn number_classes<C: Chart>(chart: &C, b: usize, strip: &mut [C::Place]) -> Option<usize>
    ensures { Numbers C.Chart chart.now b strip.old strip.new result }
{
    if b > chart.count() || power(b) > strip.len() {
        return None;
    }
    let mut list = ClassList::new(strip);
    for a in 0..power(b) {
        let place = walk(chart, b, a);
        let _ = list.note(chart, b, place);
    }
    Some(list.size())
}
