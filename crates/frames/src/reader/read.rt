//! Reading frames one after another.

ghost use Rattle.std.specs.Prelude.{◌≡◌, ◌+◌, ◌<◌, ◌≤◌, length, drop};
ghost use Rattle.frames.specs.Text.{width};
ghost use Rattle.frames.specs.Reading.{left, Next, Due};

use super::FrameReader;
use crate::faults::{Flaw, FrameFault};
use crate::frame::parts::{frame_of, is_due};
use crate::frame::{Form, Frame};

/// How many bytes come before the first byte 0A, or how many there are.
fn line_width(bytes: &[u8]) -> usize
    ensures value { result ≡ width bytes.now }
    ensures within { result ≤ length bytes.now }
{
    bytes.iter().take_while(|c| **c != b'\n').count()
}

/// Where the line that begins at `start` ends: at the first byte 0A, or with the text.
fn line_end(bytes: &[u8], start: usize) -> usize
    requires { start ≤ length bytes.now }
    ensures value { result ≡ start + width (drop start bytes.now) }
    ensures within { (start ≤ result) × (result ≤ length bytes.now) }
{
    start + line_width(&bytes[start..])
}

impl<'a> FrameReader<'a> {
    /// A reader at the start of a text, on line 1.
    pub fn new(bytes: &'a [u8]) -> FrameReader<'a>
        ensures rest { left result ≡ bytes.now }
        ensures first { result.line ≡ 1 }
    {
        FrameReader {
            bytes,
            at: 0,
            line: 1,
        }
    }

    /// The number of the line that is read next.
    pub fn line(&self) -> usize
        ensures { result ≡ self.now.line }
    {
        self.line
    }

    /// Goes on to the line that begins at `to`.
    fn go_on(&mut self, to: usize)
        requires ahead { self.old.at < to }
        requires within { to ≤ length self.old.bytes.now }
        ensures at { left self.new ≡ drop to self.old.bytes.now }
        ensures line { self.new.line ≡ self.old.line + 1 }
    {
        self.at = to;
        self.line += 1;
    }

    /// The next frame, none at the end, or what is wrong with the line. The reader goes on to the next line.
    pub fn next(&mut self) -> Result<Option<Frame>, FrameFault>
        ensures { Next self.old self.new result }
    {
        let bytes = self.bytes;
        let start = self.at;
        let line = self.line;
        if start == bytes.len() {
            return Ok(None);
        }
        let end = line_end(bytes, start);
        if end == bytes.len() {
            self.go_on(end);
            let flaw = Flaw::NoEnd;
            return Err(FrameFault::Malformed { line, flaw });
        }
        self.go_on(end + 1);
        Ok(Some(frame_of(&bytes[start..end], line)?))
    }

    /// The next frame if it is of one of these forms, none at the end, or a fault.
    pub fn due(&mut self, forms: &[Form]) -> Result<Option<Frame>, FrameFault>
        ensures { Due forms.now self.old self.new result }
    {
        let line = self.line;
        let Some(frame) = self.next()? else {
            return Ok(None);
        };
        if !is_due(forms, &frame) {
            return Err(FrameFault::NotDue { line });
        }
        Ok(Some(frame))
    }
}
