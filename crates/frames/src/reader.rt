//! A reader of frames over lent bytes.

ghost use Rattle.std.specs.Prelude.{◌+◌, ◌≤◌, length};

/// Reads a text line by line; it stands at byte `at`, where the line numbered `line` begins.
#[derive(Drop)]
pub struct FrameReader<'a> {
    bytes: &'a [u8],
    at: usize,
    line: usize,
    ghost within: { (at ≤ length bytes.now) × (line ≤ at + 1) },
}

pub mod read;
