ghost use Rattle.std.specs.Prelude.{◌≡◌, ℕ, ◌+◌, ◌<◌, ◌≤◌, false, [], length, MatchOption, slice_index_or};
ghost use Rattle.nodes.specs.declared.drafting.NodeFlaw.TheVariants.{NoRoom};
ghost use Rattle.nodes.specs.Diagrams.{node, level};
ghost use Rattle.nodes.specs.Drafts.{below as is_below, in_place, names, unnamed, top, drafted, Added, Finished};

use super::draft::Draft;
use super::node::Node;
use super::node_chart::NodeChart;
use super::reduce::{SPAN, spread};
use super::store::{Full, Store};

/// Why a node was not added.
#[derive(Clone, Copy, PartialEq, Eq, Debug)]
pub enum NodeFlaw {
    /// Its variable or a child is not in order.
    Misplaced,
    /// Its children are equal, or it is there already.
    Repeated,
    /// There are 1,024 nodes.
    NoRoom,
}

impl From<Full> for NodeFlaw {
    ghost from_gives = { λ _ e. e ≡ NoRoom };

    fn from(_full: Full) -> NodeFlaw {
        NodeFlaw::NoRoom
    }
}

/// A node, not the last, that no later one names.
#[derive(Clone, Copy, PartialEq, Eq, Debug)]
pub struct Unnamed {
    pub node: usize,
}

impl Draft {
    /// The draft of a function of `arity` arguments with no node; none for more than 16 arguments.
    pub fn new(arity: usize) -> Option<Draft>
        ensures { MatchOption result (16 < arity) (λ d. (d.arity ≡ arity) × (drafted d ≡ [])) }
    {
        if arity > 16 {
            return None;
        }
        let store = Store::new();
        Some(Draft { store, arity })
    }

    /// How many nodes there are.
    pub fn count(&self) -> usize
        ensures value { result ≡ length (drafted self.now) }
        ensures bound { result ≤ 1024 }
    {
        self.store.nodes.as_slice().len()
    }

    /// The variable of `n`, and `arity` for an end.
    fn level(&self, n: u16) -> usize
        requires { n < length (drafted self.now) + 2 }
        ensures { result ≡ level self.now.arity (drafted self.now) n }
    {
        if n < 2 {
            self.arity
        } else {
            usize::from(self.store.nodes.as_slice()[usize::from(n) - 2].var)
        }
    }

    /// Whether `n` may be a child of a new node with the variable `var`.
    fn below(&self, var: u8, n: u16) -> bool
        ensures { result ≡ is_below self.now.arity (drafted self.now) var n }
    {
        usize::from(n) < self.count() + 2 && usize::from(var) < self.level(n)
    }

    /// Whether a new node would be in order.
    fn admits(&self, node: Node) -> bool
        ensures { result ≡ in_place self.now.arity (drafted self.now) node }
    {
        let var = node.var;
        usize::from(var) < self.arity && self.below(var, node.low) && self.below(var, node.high)
    }

    /// Adds a node behind the others, with the number that is 2 more than their count.
    pub fn add(&mut self, var: u8, low: u16, high: u16) -> Result<(), NodeFlaw>
        ensures added { Added self.old.arity (drafted self.old) (drafted self.new) (node var low high) result }
        ensures arity { self.new.arity ≡ self.old.arity }
    {
        let node = Node::new(var, low, high);
        if !self.admits(node) {
            return Err(NodeFlaw::Misplaced);
        }
        let fresh = self.count() + 2;
        let number = self.store.make(node)?;
        if usize::from(number) < fresh {
            return Err(NodeFlaw::Repeated);
        }
        Ok(())
    }

    /// Marks each number that a node names.
    fn named(&self) -> [bool; SPAN]
        ensures { (n : ℕ) → slice_index_or result n false ≡ names n (drafted self.now) }
    {
        let mut marks = [false; SPAN];
        for node in self.store.nodes.as_slice() {
            spread(&mut marks, *node);
        }
        marks
    }

    /// The smallest node, not the last, that no later one names.
    fn first_unnamed(&self) -> Option<usize>
        ensures { result ≡ unnamed 2 (drafted self.now) }
    {
        let marks = self.named();
        let marks = &marks[..self.count() + 1];
        let first = marks.iter().skip(2).position(|marked| !*marked);
        first.map(|i| i + 2)
    }

    /// The number of the last node, or of the end `one` where there is no node.
    fn top(&self, one: bool) -> u16
        ensures { result ≡ top (drafted self.now) one }
    {
        match self.count() {
            0 => u16::from(one),
            count => count as u16 + 1,
        }
    }

    /// The chart whose root is the last node, or the end `one` where there is no node.
    pub fn finish(&self, one: bool) -> Result<NodeChart, Unnamed>
        ensures { Finished self.now.arity (drafted self.now) one result }
    {
        if let Some(node) = self.first_unnamed() {
            return Err(Unnamed { node });
        }
        Ok(self.store.chart(self.arity, self.top(one)))
    }
}
