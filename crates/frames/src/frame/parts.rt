//! Making and looking at frames.

ghost use Rattle.std.specs.Prelude.{◌≡◌, ◌≤◌, length, slice_index};
ghost use Rattle.frames.specs.Outcome.{admits as admits_form, body, flaw_of, is_due, line_outcome, told};
ghost use Rattle.frames.specs.Writing.{Sealed};

use super::{Form, Frame};
use crate::faults::{Flaw, FrameFault};
use crate::hex::{bytes_of, digit_run, sealing_byte, sum_of};
use rows::Row;

impl Frame {
    /// The frame's bytes, its kind first.
    pub fn bytes(&self) -> &[u8]
        ensures { result.now ≡ body self.now }
    {
        self.bytes.as_slice()
    }

    /// The frame's kind: its first byte.
    pub fn kind(&self) -> u8
        ensures { result ≡ slice_index (body self.now) 0 }
    {
        self.bytes()[0]
    }

    /// How many bytes the frame has.
    pub fn len(&self) -> usize
        ensures value { result ≡ length (body self.now) }
        ensures sized { (2 ≤ result) × (result ≤ 24) }
    {
        self.bytes().len()
    }

    /// A frame of 1 to 23 bytes and the one that makes the sum of all a multiple of 256; none for any other count.
    pub fn sealed(content: &[u8]) -> Option<Frame>
        ensures { Sealed content.now result }
    {
        let count = content.len();
        if count < 1 || count > 23 {
            return None;
        }
        let mut bytes = Row::new(0);
        bytes.extend_from_slice(content).unwrap();
        bytes.push(sealing_byte(content)).unwrap();
        Some(Frame { bytes })
    }
}

/// Why the characters of a line write no 2 to 24 bytes.
fn flaw_of(digits: &[u8]) -> Flaw
    ensures { result ≡ flaw_of digits.now }
{
    let count = digits.len();
    let run = digit_run(digits);
    if run < count {
        Flaw::Character { column: run + 1 }
    } else if count % 2 == 1 {
        Flaw::OddDigits
    } else {
        Flaw::Length { bytes: count / 2 }
    }
}

/// The frame that a line's characters write.
pub(crate) fn frame_of(digits: &[u8], line: usize) -> Result<Frame, FrameFault>
    ensures { told result ≡ line_outcome line digits.now }
{
    let Some(bytes) = bytes_of(digits) else {
        let flaw = flaw_of(digits);
        return Err(FrameFault::Malformed { line, flaw });
    };
    let content = bytes.as_slice();
    let total = sum_of(content);
    if total != 0 {
        let right = content[content.len() - 1].wrapping_sub(total);
        return Err(FrameFault::WrongSum { line, right });
    }
    Ok(Frame { bytes })
}

impl Form {
    // Kept: with a derived comparison a form would be made here to be compared, which is no plainer.
    /// Whether frames of this kind and byte count have this form.
    pub fn admits(&self, kind: u8, len: usize) -> bool
        ensures { result ≡ admits_form self.now kind len }
    {
        self.kind == kind && self.len == len
    }
}

/// Whether a frame is of one of these forms.
pub(crate) fn is_due(forms: &[Form], frame: &Frame) -> bool
    ensures { result ≡ is_due forms.now (body frame.now) }
{
    let kind = frame.kind();
    let len = frame.len();
    forms.iter().any(|form| form.admits(kind, len))
}
