ghost use Rattle.std.specs.Prelude.{◌≡◌, ◌+◌, ◌*◌, ◌%◌, ◌<◌, ◌≤◌, length};
ghost use Rattle.rows.specs.Rows.{items};
ghost use Rattle.nodes.specs.Buckets.{hash, link, Indexed};

use super::node::Node;
use super::node_chart::{NodeChart, ROOM};
use rows::Row;

/// The nodes made so far, with an index by hash: each bucket's nodes are linked from its last one back.
#[derive(Drop)]
pub(crate) struct Store {
    // Kept: numbers in place of boxes, as nodes are shared and no heap is used here.
    pub(crate) nodes: Row<Node, ROOM>,
    pub(crate) heads: [Option<u16>; ROOM],
    pub(crate) nexts: [Option<u16>; ROOM],
    ghost room: { length (items nodes) ≤ 1024 },
    ghost indexed: { Indexed (items nodes) heads nexts (length (items nodes)) },
}

// Kept: beside the row's `Full`, since a conversion into the charts' refusal has to be of a type of this crate.
/// There is no room for one node more.
#[derive(Clone, Copy)]
pub(crate) struct Full;

/// The bucket of a node.
fn bucket(n: Node) -> usize
    ensures { result ≡ hash n }
{
    (usize::from(n.low) * 31 + usize::from(n.high) * 5 + usize::from(n.var)) % ROOM
}

impl Store {
    ghost use Rattle.std.specs.Prelude.{◌≢◌, [], ◌∷◌, ◌++◌, MatchOption, MatchResult};
    ghost use Rattle.nodes.specs.Diagrams.{at, Diagram};
    ghost use Rattle.nodes.specs.Stores.{Absent, Did};

    /// The store with no node.
    pub(crate) fn new() -> Store
        ensures { items result.nodes ≡ [] }
    {
        Store {
            nodes: Row::new(Node::new(0, 0, 0)),
            heads: [None; ROOM],
            nexts: [None; ROOM],
        }
    }

    /// The link of the node with the number `n`.
    fn after(&self, n: u16) -> Option<u16>
        requires there { 2 ≤ n }
        requires inside { n < 1026 }
        ensures { result ≡ link self.now.nexts n }
    {
        self.nexts[usize::from(n) - 2]
    }

    /// The number of the node, if it is there.
    fn find(&self, node: Node) -> Option<u16>
        ensures { MatchOption result (Absent (items self.now.nodes) (length (items self.now.nodes)) node) (λ n. (2 ≤ n) × (n < length (items self.now.nodes) + 2) × (at (items self.now.nodes) n ≡ node)) }
    {
        // Kept: as `successors(..).find(..)` the proof did not close, since nothing there says that the links end.
        let mut cur = self.heads[bucket(node)];
        while let Some(n) = cur {
            if self.nodes.as_slice()[usize::from(n) - 2] == node {
                return Some(n);
            }
            cur = self.after(n);
        }
        None
    }

    /// One node more, which is not there yet.
    fn push(&mut self, node: Node) -> u16
        requires { length (items self.old.nodes) < 1024 }
        ensures number { result ≡ length (items self.old.nodes) + 2 }
        ensures nodes { items self.new.nodes ≡ items self.old.nodes ++ (node ∷ []) }
    {
        let i = self.nodes.as_slice().len();
        let b = bucket(node);
        let number = (i + 2) as u16;
        self.nodes.push(node).unwrap();
        self.nexts[i] = self.heads[b];
        self.heads[b] = Some(number);
        number
    }

    /// The number of the node: its child if both are one, the node's if it is there, or else a new one's.
    pub(crate) fn make(&mut self, node: Node) -> Result<u16, Full>
        ensures { MatchResult result (λ n. Did self.old self.new node n) (λ _. (self.new ≡ self.old) × (length (items self.old.nodes) ≡ 1024) × (node.low ≢ node.high) × Absent (items self.old.nodes) (length (items self.old.nodes)) node) }
    {
        if node.low == node.high {
            return Ok(node.low);
        }
        if let Some(there) = self.find(node) {
            return Ok(there);
        }
        if self.nodes.as_slice().len() == ROOM {
            return Err(Full);
        }
        Ok(self.push(node))
    }

    /// The chart of these nodes with the root `root`.
    pub(crate) fn chart(&self, arity: usize, root: u16) -> NodeChart
        requires small { arity ≤ 16 }
        requires diagram { Diagram arity (items self.now.nodes) (length (items self.now.nodes)) root }
        ensures nodes { items result.nodes ≡ items self.now.nodes }
        ensures arity { result.arity ≡ arity }
        ensures root { result.root ≡ root }
    {
        NodeChart {
            nodes: self.nodes,
            arity,
            root,
        }
    }
}
