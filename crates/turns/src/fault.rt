// Why a study refuses a call.
ghost use Rattle.std.specs.Prelude.{◌≡◌};
ghost use Rattle.turns.specs.Refusals.{number};

// Why a study refuses a call.
#[derive(Clone, Copy, Debug, PartialEq, Eq)]
pub enum StudyFault {
    // A delay above the greatest.
    DelayAbove,
    // A line that is not present.
    NoLine,
    // A value or a vector byte other than 0 and 1, or a vector to settle that is not as long as the inputs.
    NoBit,
    // A tie of a cell or of a tied input, an untie of a line without a tie, a vector to settle against a tie.
    TieAgainst,
    // A shorten to more, a lengthen to the same or less.
    NoSuchChange,
    // A buffer with too few places.
    ShortBuffer,
}

impl StudyFault {
    // The number of the refusal.
    pub fn number(self) -> u8
        ensures { result ≡ number self }
    {
        match self {
            StudyFault::DelayAbove => 5,
            StudyFault::NoLine => 10,
            StudyFault::NoBit => 11,
            StudyFault::TieAgainst => 12,
            StudyFault::NoSuchChange => 13,
            StudyFault::ShortBuffer => 14,
        }
    }
}
