// The refusals of a draft.
ghost use Rattle.std.specs.Prelude.{◌≡◌};
ghost use Rattle.network.specs.Refusals.{number};

// Why a draft refuses a call.
#[derive(Clone, Copy, Debug, PartialEq, Eq)]
pub enum DraftFault {
    // A name that is no name, or a cell word that is none.
    Unlawful,
    // A name that a line already has.
    Taken,
    // A cell word and a number of pins for which the family has nothing.
    NoTable,
    // A delay above the greatest.
    DelayAbove,
    // An input more than the most inputs, or a line more than the most lines.
    Full,
    // An input after a cell.
    InputAfterCell,
    // Sealing without an input.
    NoInput,
    // A pin that is not below its cell.
    PinNotBelow,
}

impl DraftFault {
    // The number of the refusal.
    pub fn number(self) -> u8
        ensures { result ≡ number self }
    {
        match self {
            DraftFault::Unlawful => 1,
            DraftFault::Taken => 2,
            DraftFault::NoTable => 4,
            DraftFault::DelayAbove => 5,
            DraftFault::Full => 6,
            DraftFault::InputAfterCell => 8,
            DraftFault::NoInput => 9,
            DraftFault::PinNotBelow => 10,
        }
    }
}
