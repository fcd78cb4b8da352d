//! Writing frames as lines into a lent buffer.

ghost use Rattle.std.specs.Prelude.{◌≡◌, ◌+◌, ◌*◌, ◌/◌, ◌%◌, ◌≤◌, map, length, take, IfOk, nat_le, slice_set};
ghost use Rattle.frames.specs.Laws.{Reads, ReadingTells, LineReads, WrittenReads, ReadIsWritten};
ghost use Rattle.frames.specs.Outcome.{body};
ghost use Rattle.frames.specs.Text.{hex_digit, line_text, placed};
ghost use Rattle.frames.specs.Writing.{text_of, Wrote};

use crate::frame::Frame;
use crate::hex::byte_digits;
use buffers::WriteRefusal;

/// Writes a byte's two digits at `at`.
fn put_byte(b: u8, out: &mut [u8], at: usize)
    requires { at + 2 ≤ length out.old }
    ensures { out.new ≡ slice_set (slice_set out.old at (hex_digit (b / 16))) (at + 1) (hex_digit (b % 16)) }
{
    let [high, low] = byte_digits(b);
    out[at] = high;
    out[at + 1] = low;
}

/// Writes a frame's line from `start` on, and answers where it ends.
fn put_line(bytes: &[u8], out: &mut [u8], start: usize) -> usize
    requires { start + (2 * length bytes.now + 1) ≤ length out.old }
    ensures written { out.new ≡ placed out.old start (line_text bytes.now) }
    ensures stop { result ≡ start + length (line_text bytes.now) }
{
    // Kept: tried a zip of `chunks_exact_mut` with the bytes; the proof did not close, as nothing is known of what it wrote.
    for (i, b) in bytes.iter().enumerate() {
        put_byte(*b, out, start + 2 * i);
    }
    let end = start + 2 * bytes.len();
    out[end] = b'\n';
    end + 1
}

/// How many bytes a frame's line takes.
fn line_len(frame: &Frame) -> usize
    ensures { result ≡ 2 * length (body frame.now) + 1 }
{
    2 * frame.len() + 1
}

/// Whether the lines of frames take at most so many bytes.
fn fits(frames: &[Frame], room: usize) -> bool
    ensures { result ≡ nat_le (length (text_of frames.now)) room }
{
    let mut spare = room;
    // Kept: tried `try_fold`; the proof did not close, since its clause does not tie a call's total to that of the call before.
    for frame in frames {
        let need = line_len(frame);
        if spare < need {
            return false;
        }
        spare -= need;
    }
    true
}

/// Writes the lines of frames to the front of `out`, and answers how many bytes they take; where `out` is too short
/// it writes nothing. What is written reads back as these frames and then the end, and no other text does; and every
/// line of any text reads as what it is.
pub fn write_frames(frames: &[Frame], out: &mut [u8]) -> Result<usize, WriteRefusal>
    ensures wrote { Wrote (text_of frames.now) out.old out.new result }
    ensures reads { IfOk result (λ n. Reads (take n out.new) 1 (map body frames.now)) }
    ensures law { (ReadingTells × LineReads) × (WrittenReads × ReadIsWritten) }
{
    if !fits(frames, out.len()) {
        return Err(WriteRefusal::TooShort);
    }
    let mut at = 0;
    for frame in frames {
        at = put_line(frame.bytes(), out, at);
    }
    Ok(at)
}
