//! The records of a bit page: its heading, and the frames that carry its table.

ghost use Rattle.std.specs.Prelude.{◌≡◌, ◌+◌, ◌^◌, ◌≤◌, length, IfSome, IfOk};
ghost use Rattle.frames.specs.Outcome.{body};
ghost use Rattle.frames.specs.Reading.{left, Moved};
ghost use Rattle.frames.specs.Records.{answered};
ghost use Rattle.bitpages.specs.Page.{heading, carried, bits};
ghost use Rattle.bitpages.specs.Table.{size, share, count};

use bits::power;
use frames::faults::RecordFault;
use frames::frame::Frame;
use frames::kinds::Kind;
use frames::reader::FrameReader;
use frames::records::read_due;

/// A number of arguments that a bit page can have, which says how its table lies in bytes and frames.
#[derive(Clone, Copy)]
pub(crate) struct Arity {
    pub(crate) n: usize,
    ghost range: { (1 ≤ n) × (n ≤ 12) },
}

impl Arity {
    /// How many entries the table has.
    pub(crate) fn entries(self) -> usize
        ensures value { result ≡ 2 ^ self.n }
        ensures bound { result ≤ 4096 }
    {
        power(self.n)
    }

    /// How many bytes hold the table.
    pub(crate) fn bytes(self) -> usize
        ensures value { result ≡ size self.n }
        ensures bound { (1 ≤ result) × (result ≤ 512) }
    {
        power(self.n.saturating_sub(3))
    }

    /// How many of them a frame carries.
    pub(crate) fn share(self) -> usize
        ensures value { result ≡ share self.n }
        ensures bound { (1 ≤ result) × (result ≤ 16) }
    {
        self.bytes().min(16)
    }

    /// How many frames carry them.
    pub(crate) fn frames(self) -> usize
        ensures { result ≡ count self.n }
    {
        self.bytes() / self.share()
    }
}

/// The number of arguments that the heading of a bit page gives; none at the end of the text.
pub fn read_heading(reader: &mut FrameReader) -> Result<Option<usize>, RecordFault>
    ensures answer { answered (λ n. n) result ≡ heading (left reader.old) reader.old.line }
    ensures range { IfOk result (λ o. IfSome o (λ n. (1 ≤ n) × (n ≤ 12))) }
    ensures moved { Moved reader.old reader.new }
{
    let line = reader.line();
    let Some(frame) = read_due(reader, Kind::BitPage, 3)? else {
        return Ok(None);
    };
    let n = usize::from(frame.bytes()[1]);
    if !(1..=12).contains(&n) {
        return Err(RecordFault::OutOfRange { line });
    }
    Ok(Some(n))
}

/// The next frame that carries bytes of a table; none at the end of the text.
pub(crate) fn read_bits(
    reader: &mut FrameReader,
    arity: Arity,
) -> Result<Option<Frame>, RecordFault>
    ensures answer { answered (λ f. carried arity.n (body f)) result ≡ bits arity.n (left reader.old) reader.old.line }
    ensures long { IfOk result (λ o. IfSome o (λ f. length (body f) ≡ share arity.n + 2)) }
    ensures moved { Moved reader.old reader.new }
{
    let line = reader.line();
    let Some(frame) = read_due(reader, Kind::Bits, arity.share() + 2)? else {
        return Ok(None);
    };
    let first = frame.bytes()[1];
    if arity.n == 1 && first >= 4 || arity.n == 2 && first >= 16 {
        return Err(RecordFault::BadPlace { line, node: 0 });
    }
    Ok(Some(frame))
}
