//! A frame, and the frames that are due.

ghost use Rattle.rows.specs.Rows.{items};
ghost use Rattle.frames.specs.Text.{Good, Bytes};

use rows::Row;

/// A good frame: 2 to 24 bytes, of which the first is its kind, and whose sum is a multiple of 256.
#[derive(Clone, Copy)]
pub struct Frame {
    bytes: Row<u8, 24>,
    ghost good: { Good (items bytes) },
    ghost fits: { Bytes (items bytes) },
}

/// What a frame that is due looks like: its kind, and how many bytes it has.
#[derive(Clone, Copy)]
pub struct Form {
    // Kept: `Kind` in the place of `u8` would ask more of callers.
    pub kind: u8,
    pub len: usize,
}

pub mod parts;
