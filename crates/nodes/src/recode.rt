ghost use Rattle.std.specs.Prelude.{◌≡◌, ℕ, ◌+◌, ◌-◌, ◌^◌, ◌<◌, ◌≤◌, [], length, map, slice_index};
ghost use Rattle.functions.specs.Functions.{recoded};
ghost use Rattle.charts.specs.Changes.{IsInRange};
ghost use Rattle.rows.specs.Rows.{items};
ghost use Rattle.nodes.specs.Diagrams.{node, blank};
ghost use Rattle.nodes.specs.Recodes.{Shifts};
ghost use Rattle.nodes.specs.NodeCharts.{seen, place_column, Draws};

use super::node::Node;
use super::node_chart::NodeChart;
use super::raw::{MOST_RECODED, Raw};
use super::store::Full;
use bits::power;
use charts::Recoding;

/// The node once `j` variables stand in the place of the first `b`: a blank if its own is one of these.
fn moved(old: Node, b: u8, j: u8) -> Node
    requires small { old.var < 16 }
    requires few { j ≤ 4 }
    ensures kept { b ≤ old.var → result ≡ node (old.var - b + j) old.low old.high }
    ensures gone { old.var < b → result ≡ blank }
{
    if old.var < b {
        Node::new(0, 0, 0)
    } else {
        Node::new(old.var - b + j, old.low, old.high)
    }
}

/// Puts the nodes once `j` variables stand in the place of the first `b` into a diagram that has none; none if no other
/// variable is left.
fn shifted(chart: &NodeChart, b: u8, j: u8, raw: &mut Raw<MOST_RECODED>)
    requires few { j ≤ 4 }
    requires front { b ≤ chart.now.arity }
    requires empty { items raw.old.nodes ≡ [] }
    ensures arity { raw.new.arity ≡ raw.old.arity }
    ensures all { b < chart.now.arity → length (items raw.new.nodes) ≡ length (items chart.now.nodes) }
    ensures none { b ≡ chart.now.arity → length (items raw.new.nodes) ≡ 0 }
    ensures shifts { b < chart.now.arity → Shifts (items chart.now.nodes) b j (length (items chart.now.nodes) + 2) (items raw.new.nodes) }
{
    if usize::from(b) < chart.arity {
        for old in chart.nodes.as_slice() {
            raw.push(moved(*old, b, j));
        }
    }
}

/// The number of the place of each code's class, in front of zeros.
fn leaves_of(chart: &NodeChart, recoding: &Recoding<usize>) -> [u16; 16]
    requires { IsInRange chart.now.arity recoding.now }
    ensures { (q : ℕ) → q < 2 ^ recoding.now.codes → slice_index result q ≡ seen (items chart.now.nodes) (length (items chart.now.nodes)) recoding.now.bound (slice_index recoding.now.places.now (slice_index recoding.now.class_of.now q)) }
{
    // Kept: written by index. As a `zip` of `iter_mut` the proof did not close: nothing is known of what it wrote.
    let mut leaves = [0; 16];
    let codes = &recoding.class_of[..power(recoding.codes)];
    for (q, class) in codes.iter().enumerate() {
        leaves[q] = chart.number(recoding.bound, recoding.places[*class]);
    }
    leaves
}

/// The recoded chart, if the function's size is at most 1,024.
pub(crate) fn redrawn(chart: &NodeChart, recoding: &Recoding<usize>) -> Result<NodeChart, Full>
    requires { IsInRange chart.now.arity recoding.now }
    ensures { Draws (chart.now.arity - recoding.now.bound + recoding.now.codes) (recoded recoding.now.codes (map (place_column chart.now recoding.now.bound) recoding.now.places.now) (λ q. slice_index recoding.now.class_of.now q)) result }
{
    let (b, j) = (recoding.bound as u8, recoding.codes as u8);
    let leaves = leaves_of(chart, recoding);
    let mut raw = Raw::new(chart.arity - recoding.bound + recoding.codes);
    shifted(chart, b, j, &mut raw);
    let root = raw.crown(&leaves[..power(recoding.codes)], 0, j);
    raw.reduced(root)
}
