ghost use Rattle.std.specs.Prelude.{◌≡◌, ◌≤◌};
ghost use Rattle.rows.specs.Rows.{items};

use super::node::Node;
use super::node_chart::NodeChart;
use super::reduce::Unreduced;
use super::store::Full;
use rows::Row;

/// The most nodes of an unreduced diagram: three for each of a chart's.
pub(crate) const MOST_NODES: usize = 3072;

/// The most nodes of a recoded diagram that is not reduced: those of a chart, and 16 on top.
pub(crate) const MOST_RECODED: usize = 1040;

/// At most `N` nodes of a diagram of `arity` variables, put one behind another and not yet reduced.
#[derive(Drop)]
pub(crate) struct Raw<const N: usize> {
    pub(crate) nodes: Row<Node, N>,
    pub(crate) arity: usize,
    ghost small: { arity ≤ 16 },
    ghost few: { N ≤ 3072 },
}

impl<const N: usize> Raw<N> {
    ghost use Rattle.std.specs.Prelude.{◌+◌, ◌<◌, [], ◌∷◌, ◌++◌, length};
    ghost use Rattle.nodes.specs.Diagrams.{mean, Ordered};
    ghost use Rattle.nodes.specs.NodeCharts.{Draws};

    /// No node of `arity` variables.
    pub(crate) fn new(arity: usize) -> Self
        requires small { arity ≤ 16 }
        requires few { N ≤ 3072 }
        ensures nodes { items result.nodes ≡ [] }
        ensures arity { result.arity ≡ arity }
    {
        Raw {
            nodes: Row::new(Node::new(0, 0, 0)),
            arity,
        }
    }

    /// Puts a node behind the others, and returns its number.
    pub(crate) fn push(&mut self, node: Node) -> u16
        requires { length (items self.old.nodes) < N }
        ensures number { result ≡ length (items self.old.nodes) + 2 }
        ensures nodes { items self.new.nodes ≡ items self.old.nodes ++ (node ∷ []) }
        ensures arity { self.new.arity ≡ self.old.arity }
    {
        self.nodes.push(node).unwrap();
        (self.nodes.as_slice().len() + 1) as u16
    }

    /// The chart of what the root means in these nodes, if the function's size is at most 1,024.
    pub(crate) fn reduced(&self, root: u16) -> Result<NodeChart, Full>
        requires rooted { root < length (items self.now.nodes) + 2 }
        requires ordered { Ordered self.now.arity (items self.now.nodes) (length (items self.now.nodes)) }
        ensures { Draws self.now.arity (mean (items self.now.nodes) self.now.arity 0 root) result }
    {
        let diagram = Unreduced {
            nodes: self.nodes.as_slice(),
            arity: self.arity,
            root,
        };
        diagram.reduce()
    }
}

impl Raw<MOST_RECODED> {
    ghost use Rattle.std.specs.Prelude.{◌+◌, ◌-◌, ◌^◌, length};
    ghost use Rattle.nodes.specs.Recodes.{Leaves, Topped};

    /// Puts the nodes of the variables from `var` to `j` over the leaves, and returns the top one's number.
    pub(crate) fn crown(&mut self, leaves: &[u16], var: u8, j: u8) -> u16
        requires leaves { Leaves (items self.old.nodes) (length (items self.old.nodes)) self.old.arity j leaves.now }
        requires within { var ≤ j }
        requires width { length leaves.now ≡ 2 ^ (j - var) }
        requires room { length (items self.old.nodes) + length leaves.now ≤ 1041 }
        ensures top { Topped (items self.old.nodes) (length (items self.old.nodes)) (items self.new.nodes) (length (items self.new.nodes)) self.old.arity j leaves.now var result }
        ensures arity { self.new.arity ≡ self.old.arity }
    {
        if var == j {
            return leaves[0];
        }
        let (low, high) = leaves.split_at(leaves.len() / 2);
        let low = self.crown(low, var + 1, j);
        let high = self.crown(high, var + 1, j);
        self.push(Node::new(var, low, high))
    }
}
