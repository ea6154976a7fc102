// Why a text is no sheet, and where.
ghost use Rattle.std.specs.Prelude.{◌≡◌};
ghost use Rattle.grammar.specs.Faults.{fault_number, fault_place};

use crate::read::MAX_SHEET;

#[derive(Clone, Copy, Debug, PartialEq, Eq)]
pub enum GrammarFault {
    // More bytes than a sheet can have.
    TooLong,
    // With the byte at this place, or with the end there, no sheet is possible any more.
    Broken { place: usize },
    // At this place opens a ninth cell deep.
    TooDeep { place: usize },
}

impl GrammarFault {
    // The number of the refusal.
    pub fn number(self) -> u8
        ensures { result ≡ fault_number self }
    {
        match self {
            GrammarFault::TooLong => 6,
            GrammarFault::Broken { .. } => 1,
            GrammarFault::TooDeep { .. } => 7,
        }
    }

    // Its place, counted in bytes from 0.
    pub fn place(self) -> usize
        ensures { result ≡ fault_place self }
    {
        match self {
            GrammarFault::TooLong => MAX_SHEET,
            GrammarFault::Broken { place } | GrammarFault::TooDeep { place } => place,
        }
    }
}
