ghost use Rattle.std.specs.Prelude.{◌≡◌, ◌==◌, length};
ghost use Rattle.rows.specs.Rows.{items};
ghost use Rattle.nodes.specs.NodeCharts.{seen};

use super::node_chart::NodeChart;

/// Whether a place is the end 1.
pub(crate) fn is_one(place: usize) -> bool
    ensures { result ≡ (place == 1) }
{
    place == 1
}

impl NodeChart {
    /// The number that `n` stands for at `depth`: the end 0 if it is not there.
    pub(crate) fn number(&self, depth: usize, n: usize) -> u16
        ensures { result ≡ seen (items self.now.nodes) (length (items self.now.nodes)) depth n }
    {
        let nodes = self.nodes.as_slice();
        if n < 2 || (n < nodes.len() + 2 && depth <= usize::from(nodes[n - 2].var)) {
            n as u16
        } else {
            0
        }
    }

    /// Whether two places stand for the same number at `depth`.
    pub(crate) fn alike(&self, depth: usize, a: usize, b: usize) -> bool
        ensures { result ≡ (seen (items self.now.nodes) (length (items self.now.nodes)) depth a == seen (items self.now.nodes) (length (items self.now.nodes)) depth b) }
    {
        self.number(depth, a) == self.number(depth, b)
    }
}
