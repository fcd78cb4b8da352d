//! What a call on a design answers.

ghost use Rattle.std.specs.Prelude.{◌≡◌};
ghost use Rattle.mapping.specs.Calls.{answer_number, answer_classes};
ghost use Rattle.mapping.specs.declared.answer.Answer.TheVariants.{Refused};

use super::refusal::Refusal;

/// What a call on a design answered.
#[derive(Clone, Copy, PartialEq, Eq, Debug)]
pub enum Answer {
    /// A swap or a close was done.
    Done,
    /// A split was done: how many classes there were, and how many cells the design has now.
    Divided { classes: usize, cells: usize },
    /// The bit at the pin.
    Shows { bit: bool },
    /// The page was written, and takes so many bytes.
    Wrote { bytes: usize },
    /// The call was refused.
    Refused { refusal: Refusal },
}

impl From<Refusal> for Answer {
    ghost from_gives = { λ r a. a ≡ Refused r };

    fn from(refusal: Refusal) -> Answer {
        Answer::Refused { refusal }
    }
}

impl Answer {
    // Kept: the frame of an answer has 0 for what was done.
    /// 0 for a call that was done, and else the refusal's number.
    pub fn number(&self) -> u8
        ensures { result ≡ answer_number self.now }
    {
        match self {
            Answer::Refused { refusal } => refusal.number(),
            _ => 0,
        }
    }

    // Kept: who writes the frame of an answer needs the 0 for none, and would turn an Option back into it.
    /// The class count that the answer tells: 0 where it tells none.
    pub fn classes(&self) -> usize
        ensures { result ≡ answer_classes self.now }
    {
        match self {
            Answer::Divided { classes, .. } => *classes,
            Answer::Refused { refusal } => refusal.classes(),
            _ => 0,
        }
    }
}
