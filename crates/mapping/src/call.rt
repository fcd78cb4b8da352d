//! The calls on a design that was opened.

/// A call on a design.
#[derive(Clone, Copy, PartialEq, Eq, Debug)]
pub enum Call {
    /// Exchanges the live signals at `place` and `place` + 1.
    Swap {
        place: usize,
    },
    /// Replaces the first `bound` live signals by `codes` new cells, and is lent a strip of `room` places.
    Split {
        bound: usize,
        codes: usize,
        room: usize,
    },
    /// Adds the closing cell.
    Close,
    /// Asks for the bit at the pin; input i has the weight 2^i.
    Pin {
        inputs: u16,
    },
    /// Writes the network's page, and is lent a buffer of `room` bytes.
    Write {
        room: usize,
    },
}
