// Why a sheet is refused, and where.
ghost use Rattle.std.specs.Prelude.{◌≡◌};
ghost use Rattle.drawing.specs.declared.fault.SheetFault.TheVariants.{Grammar, Draft};
ghost use Rattle.drawing.specs.Faults.{refusal, placed};

use grammar::fault::GrammarFault;
use network::fault::DraftFault;

// Why a sheet is refused, and where. A place is counted in bytes from 0.
#[derive(Clone, Copy, Debug, PartialEq, Eq)]
pub enum SheetFault {
    // The text is no sheet, or is too long.
    Grammar(GrammarFault),
    // A pin's name, at this place, that no line has so far.
    NoLine { place: usize },
    // What the draft said of the word or bracket at this place.
    Draft { fault: DraftFault, place: usize },
}

// A draft's refusal beside its place. By a rule of this project `?` turns it into a sheet's by `From`, which takes one value.
#[derive(Clone, Copy)]
pub(crate) struct Placed {
    pub(crate) fault: DraftFault,
    pub(crate) place: usize,
}

impl From<GrammarFault> for SheetFault {
    ghost from_gives = { λ x y. y ≡ Grammar x };

    fn from(fault: GrammarFault) -> SheetFault {
        SheetFault::Grammar(fault)
    }
}

impl From<Placed> for SheetFault {
    ghost from_gives = { λ x y. y ≡ Draft x.fault x.place };

    fn from(placed: Placed) -> SheetFault {
        SheetFault::Draft {
            fault: placed.fault,
            place: placed.place,
        }
    }
}

impl SheetFault {
    // The number of the refusal.
    pub fn number(self) -> u8
        ensures { result ≡ (refusal self).number }
    {
        match self {
            SheetFault::Grammar(fault) => fault.number(),
            SheetFault::NoLine { .. } => 3,
            SheetFault::Draft { fault, .. } => fault.number(),
        }
    }

    // Its place, counted in bytes from 0.
    pub fn place(self) -> usize
        ensures { result ≡ (refusal self).place }
    {
        match self {
            SheetFault::Grammar(fault) => fault.place(),
            SheetFault::NoLine { place } | SheetFault::Draft { place, .. } => place,
        }
    }
}

// A result of the draft, its refusal beside the place.
pub(crate) fn at<T>(r: Result<T, DraftFault>, place: usize) -> Result<T, Placed>
    ensures { result ≡ placed place r }
{
    r.map_err(|fault| Placed { fault, place })
}
