//! The words for kinds, faults and good frames.

ghost use Rattle.std.specs.Prelude.{◌≡◌, IfOk, string_bytes};
ghost use Rattle.frames.specs.Kinds.{kind_of};
ghost use Rattle.frames.specs.Outcome.{body};
ghost use Rattle.frames.specs.Text.{byte_digits};
ghost use Rattle.frames.specs.Words.{kind_name};
ghost use Rattle.reports.specs.Words.{fault_text, frame_pieces, frame_text};

use frames::faults::PageFault;
use frames::frame::Frame;
use frames::kinds::Kind;
use std::alloc::{AllocError, Global};

/// What a kind is called.
pub fn kind_name(kind: Option<Kind>) -> &'static str
    ensures { result.now ≡ kind_name kind }
{
    match kind {
        None => "unknown kind",
        Some(known) => known.name(),
    }
}

/// A byte's two digits, as text.
pub fn byte_text(heap: Global, byte: u8) -> Result<String, AllocError>
    ensures { IfOk result (λ s. string_bytes s ≡ byte_digits byte) }
{
    format!(in heap; "{byte:02X}")
}

/// A fault in words: its line, layer, cause and node, and what is wrong.
pub fn fault_text(heap: Global, fault: &PageFault) -> Result<String, AllocError>
    ensures { IfOk result (λ s. string_bytes s ≡ fault_text fault.now) }
{
    let numbers = fault.numbers();
    format!(in heap; "{numbers}: {fault}")
}

/// What the kind that a byte stands for is called.
fn name_of(byte: u8) -> &'static str
    ensures { result.now ≡ kind_name (kind_of byte) }
{
    kind_name(Kind::try_from(byte).ok())
}

/// The text of a good frame, from its line, its kind's digits, its byte count and its kind's name.
fn frame_pieces(
    heap: Global,
    line: usize,
    kind: &str,
    count: usize,
    name: &str,
) -> Result<String, AllocError>
    ensures { IfOk result (λ s. string_bytes s ≡ frame_pieces line kind.now count name.now) }
{
    format!(in heap; "line {line}: kind {kind}, {count} bytes: {name}")
}

/// A good frame in words: its line, kind, byte count and what the kind is called.
pub fn frame_text(heap: Global, line: usize, frame: &Frame) -> Result<String, AllocError>
    ensures { IfOk result (λ s. string_bytes s ≡ frame_text line (body frame.now)) }
{
    let kind = byte_text(heap, frame.kind())?;
    let name = name_of(frame.kind());
    frame_pieces(heap, line, kind.as_str(), frame.len(), name)
}
