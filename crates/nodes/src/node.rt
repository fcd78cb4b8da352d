ghost use Rattle.std.specs.Prelude.{◌≡◌};
/// A node of a diagram: its variable, and the numbers of its children where that is 0 and where it is 1.
#[derive(Clone, Copy, PartialEq, Eq, Debug)]
pub(crate) struct Node {
    pub(crate) var: u8,
    pub(crate) low: u16,
    pub(crate) high: u16,
}

impl Node {
    ghost use Rattle.nodes.specs.Diagrams.{node, child};

    /// The node of these parts.
    pub(crate) fn new(var: u8, low: u16, high: u16) -> Node
        ensures { result ≡ node var low high }
    {
        Node { var, low, high }
    }

    /// The child where the variable has the value.
    pub(crate) fn child(&self, value: bool) -> u16
        ensures { result ≡ child value self.now }
    {
        if value { self.high } else { self.low }
    }
}
