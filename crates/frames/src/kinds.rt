//! The kinds of frames.

ghost use Rattle.std.specs.Prelude.{◌≡◌, Some};
ghost use Rattle.frames.specs.Kinds.{kind_byte, KindOf};
ghost use Rattle.frames.specs.Words.{kind_name};

use std::fmt;

/// What a frame is, by its first byte.
#[derive(Clone, Copy, PartialEq, Eq, Debug)]
pub enum Kind {
    NodePage = 0x01,
    Node = 0x02,
    BitPage = 0x03,
    Bits = 0x04,
    Network = 0x11,
    Cell = 0x12,
    Job = 0x20,
    Swap = 0x21,
    Split = 0x22,
    Close = 0x23,
    Answer = 0x31,
    Fault = 0x32,
}

/// A byte with which no kind of frame begins.
#[derive(Clone, Copy, PartialEq, Eq, Debug)]
pub struct UnknownKind(pub u8);

impl From<Kind> for u8 {
    ghost from_gives = { λ k b. b ≡ kind_byte k };

    /// The byte that frames of this kind begin with.
    fn from(kind: Kind) -> u8 {
        kind as u8
    }
}

impl TryFrom<u8> for Kind {
    type Error = UnknownKind;

    ghost try_from_gives = { KindOf };

    /// The kind of the frames that begin with a byte.
    fn try_from(byte: u8) -> Result<Kind, UnknownKind> {
        match byte {
            0x01 => Ok(Kind::NodePage),
            0x02 => Ok(Kind::Node),
            0x03 => Ok(Kind::BitPage),
            0x04 => Ok(Kind::Bits),
            0x11 => Ok(Kind::Network),
            0x12 => Ok(Kind::Cell),
            0x20 => Ok(Kind::Job),
            0x21 => Ok(Kind::Swap),
            0x22 => Ok(Kind::Split),
            0x23 => Ok(Kind::Close),
            0x31 => Ok(Kind::Answer),
            0x32 => Ok(Kind::Fault),
            _ => Err(UnknownKind(byte)),
        }
    }
}

impl Kind {
    /// What the kind is called.
    pub fn name(&self) -> &'static str
        ensures { result.now ≡ kind_name (Some self.now) }
    {
        match self {
            Kind::NodePage => "node page",
            Kind::Node => "node",
            Kind::BitPage => "bit page",
            Kind::Bits => "bits",
            Kind::Network => "network",
            Kind::Cell => "cell",
            Kind::Job => "job",
            Kind::Swap => "swap",
            Kind::Split => "split",
            Kind::Close => "close",
            Kind::Answer => "answer",
            Kind::Fault => "fault",
        }
    }
}

/// Writes what the kind is called.
impl fmt::Display for Kind {
    ghost output = { λ k. Some (kind_name (Some k)) };

    fn fmt<W: fmt::Write>(&self, f: &mut fmt::Formatter<W>) -> fmt::Result {
        f.write_str(self.name())
    }
}
