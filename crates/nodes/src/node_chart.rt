ghost use Rattle.std.specs.Prelude.{◌+◌, ◌<◌, ◌≤◌, length};
ghost use Rattle.rows.specs.Rows.{items};
ghost use Rattle.nodes.specs.Diagrams.{Ordered, Proper, Single, Reached};

use super::node::Node;
use rows::Row;

/// The most nodes that a node chart has.
pub(crate) const ROOM: usize = 1024;

/// A function of at most 16 arguments by its reduced ordered diagram of at most 1,024 nodes.
#[derive(Clone, Copy)]
pub struct NodeChart {
    // Kept: numbers in place of boxes, as nodes are shared and no heap is used here.
    pub(crate) nodes: Row<Node, ROOM>,
    pub(crate) arity: usize,
    pub(crate) root: u16,
    ghost small: { arity ≤ 16 },
    ghost room: { length (items nodes) ≤ 1024 },
    ghost rooted: { root < length (items nodes) + 2 },
    ghost ordered: { Ordered arity (items nodes) (length (items nodes)) },
    ghost proper: { Proper (items nodes) (length (items nodes)) },
    ghost single: { Single (items nodes) (length (items nodes)) },
    ghost reached: { Reached (items nodes) (length (items nodes)) root },
}
