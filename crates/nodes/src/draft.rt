ghost use Rattle.std.specs.Prelude.{◌≤◌, length};
ghost use Rattle.rows.specs.Rows.{items};
ghost use Rattle.nodes.specs.Diagrams.{Ordered, Proper, Single};

use super::store::Store;

/// Nodes of a diagram given one by one, children first, before all are named: ordered, reduced so far, and found by
/// their hash.
#[derive(Drop)]
pub struct Draft {
    pub(crate) store: Store,
    pub(crate) arity: usize,
    ghost small: { arity ≤ 16 },
    ghost ordered: { Ordered arity (items store.nodes) (length (items store.nodes)) },
    ghost proper: { Proper (items store.nodes) (length (items store.nodes)) },
    ghost single: { Single (items store.nodes) (length (items store.nodes)) },
}
