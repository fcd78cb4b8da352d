ghost use Rattle.std.specs.Prelude.{◌≡◌, ◌+◌, ◌<◌, ◌≤◌, false, length, slice_index_or};
ghost use Rattle.nodes.specs.Diagrams.{Ordered};
ghost use Rattle.nodes.specs.Marks.{Spread, renamed};

use super::node::Node;
use super::node_chart::NodeChart;
use super::raw::MOST_NODES;
use super::store::{Full, Store};

/// The most numbers of an unreduced diagram: those of the two ends and of the nodes.
pub(crate) const SPAN: usize = MOST_NODES + 2;

/// Marks the children of a node.
pub(crate) fn spread(marks: &mut [bool; SPAN], node: Node)
    requires low { node.low < 3074 }
    requires high { node.high < 3074 }
    ensures { Spread marks.old marks.new node }
{
    marks[usize::from(node.low)] = true;
    marks[usize::from(node.high)] = true;
}

/// Whether the node at `i` is marked.
fn is_marked(marks: &[bool; SPAN], i: usize) -> bool
    requires { i < 3072 }
    ensures { result ≡ slice_index_or marks.now (i + 2) false }
{
    marks[i + 2]
}

/// The node with the new numbers of its children.
fn renamed(old: Node, new: &[u16; SPAN]) -> Node
    requires low { old.low < 3074 }
    requires high { old.high < 3074 }
    ensures { result ≡ renamed old new.now }
{
    let low = new[usize::from(old.low)];
    let high = new[usize::from(old.high)];
    Node::new(old.var, low, high)
}

/// An ordered diagram that is not yet reduced.
#[derive(Clone, Copy)]
pub(crate) struct Unreduced<'a> {
    pub(crate) nodes: &'a [Node],
    pub(crate) arity: usize,
    pub(crate) root: u16,
    ghost small: { arity ≤ 16 },
    ghost long: { length nodes.now ≤ 3072 },
    ghost rooted: { root < length nodes.now + 2 },
    ghost ordered: { Ordered arity nodes.now (length nodes.now) },
}

impl Unreduced<'_> {
    ghost use Rattle.nodes.specs.Diagrams.{mean};
    ghost use Rattle.nodes.specs.Marks.{Marks};
    ghost use Rattle.nodes.specs.NodeCharts.{Draws};

    /// Marks each number that is come to from the root.
    fn marks(&self) -> [bool; SPAN]
        ensures { Marks self.now.nodes.now self.now.root 2 result }
    {
        let mut marks = [false; SPAN];
        marks[usize::from(self.root)] = true;
        // Kept: a mark is read by its number, as the loop writes the marks that it reads.
        for (i, node) in self.nodes.iter().enumerate().rev() {
            if is_marked(&marks, i) {
                spread(&mut marks, *node);
            }
        }
        marks
    }

    /// The chart of what the root means, if the function's size is at most 1,024: the marked nodes made anew, children
    /// first.
    pub(crate) fn reduce(&self) -> Result<NodeChart, Full>
        ensures { Draws self.now.arity (mean self.now.nodes.now self.now.arity 0 self.now.root) result }
    {
        let marks = self.marks();
        let mut store = Store::new();
        let mut new = [0; SPAN];
        new[1] = 1;
        // Kept: a mark is read by its number. As a `zip` the proof did not close: no invariant there can name the marks.
        for (i, old) in self.nodes.iter().enumerate() {
            if is_marked(&marks, i) {
                new[i + 2] = store.make(renamed(*old, &new))?;
            }
        }
        Ok(store.chart(self.arity, new[usize::from(self.root)]))
    }
}
