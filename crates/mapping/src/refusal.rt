//! Why a call on a design is refused.

ghost use Rattle.std.specs.Prelude.{◌≡◌};
ghost use Rattle.mapping.specs.Calls.{refusal_number, refusal_classes};
ghost use Rattle.mapping.specs.Refusals.{of_swap};
ghost use Rattle.mapping.specs.declared.refusal.Refusal.TheVariants.{TooShort};

use buffers::WriteRefusal;
use charts::ChartRefusal;

/// Why a call on a design was refused.
#[derive(Clone, Copy, PartialEq, Eq, Debug)]
pub enum Refusal {
    /// The design is closed.
    Closed,
    /// The call's numbers are out of range.
    OutOfRange,
    /// There are more classes than the codes tell apart, so that no decomposition exists.
    TooManyClasses { classes: usize },
    /// More signals are live than a cell has pins.
    TooWide,
    /// The design is still open.
    StillOpen,
    /// The exchanged function does not fit the chart.
    DoesNotFit,
    /// The split's function does not fit the chart.
    SplitDoesNotFit { classes: usize },
    /// The part has too few cells.
    TooManyCells { classes: usize },
    /// The buffer or the strip is too short.
    TooShort,
}

/// The refusal of a swap, from the chart's.
impl From<ChartRefusal> for Refusal {
    ghost from_gives = { λ c r. r ≡ of_swap c };

    fn from(refusal: ChartRefusal) -> Refusal {
        match refusal {
            ChartRefusal::OutOfRange => Refusal::OutOfRange,
            ChartRefusal::DoesNotFit => Refusal::DoesNotFit,
        }
    }
}

/// The refusal of a write, from the buffer's.
impl From<WriteRefusal> for Refusal {
    ghost from_gives = { λ _ r. r ≡ TooShort };

    fn from(refusal: WriteRefusal) -> Refusal {
        match refusal {
            WriteRefusal::TooShort => Refusal::TooShort,
        }
    }
}

impl Refusal {
    // Kept: a variant with a field has no number that a cast gives, so that the match is the plainest.
    /// The refusal's number.
    pub fn number(&self) -> u8
        ensures { result ≡ refusal_number self.now }
    {
        match self {
            Refusal::Closed => 10,
            Refusal::OutOfRange => 11,
            Refusal::TooManyClasses { .. } => 12,
            Refusal::TooWide => 13,
            Refusal::StillOpen => 14,
            Refusal::DoesNotFit => 20,
            Refusal::SplitDoesNotFit { .. } => 20,
            Refusal::TooManyCells { .. } => 21,
            Refusal::TooShort => 22,
        }
    }

    // Kept: who writes the frame of an answer needs the 0 for none, and would turn an Option back into it.
    /// The class count that the refusal tells: 0 where it tells none.
    pub fn classes(&self) -> usize
        ensures { result ≡ refusal_classes self.now }
    {
        match self {
            Refusal::TooManyClasses { classes } => *classes,
            Refusal::SplitDoesNotFit { classes } => *classes,
            Refusal::TooManyCells { classes } => *classes,
            _ => 0,
        }
    }
}
