// Time in ticks.
ghost use Rattle.std.specs.Prelude.{◌≡◌, ◌+◌, ◌≤◌, min, Some, Decides};
ghost use Rattle.times.specs.Kinds.{ticks_kind, greatest_ticks};
ghost use Rattle.times.specs.Written.{ticks_text, ReadsTicks};
ghost use Rattle.std.specs.Str.Parse.{ExplainsUnsignedError};
ghost use Rattle.std.proofs.Common.{rules};

use crate::time::Time;
use std::fmt;
use std::num::ParseIntError;
use std::str::FromStr;

// A count of ticks from 0; a sum above the greatest count gives the greatest.
#[derive(Clone, Copy, Debug, PartialEq, Eq, PartialOrd, Ord)]
pub struct Ticks {
    pub ticks: u64,
}

impl Time for Ticks {
    ghost kind = { ticks_kind };

    ghost lawful = { Prim.search rules };

    ghost longer = { Prim.search rules };

    fn start() -> Ticks
        ensures value { result ≡ ticks_kind.start }
        ensures zero { result.ticks ≡ 0 }
    {
        Ticks { ticks: 0 }
    }

    fn at_or_before(self, other: Ticks) -> bool
        ensures value { result ≡ ticks_kind.at_or_before self other }
        ensures order { Decides result (self.ticks ≤ other.ticks) }
    {
        self <= other
    }

    fn after(self, delay: u32) -> Ticks
        ensures value { result ≡ ticks_kind.after self delay }
        ensures sum { result.ticks ≡ min greatest_ticks (self.ticks + delay) }
    {
        Ticks {
            ticks: self.ticks.saturating_add(delay as u64),
        }
    }
}

// As `5`.
impl fmt::Display for Ticks {
    ghost output = { λ t. Some (ticks_text t) };

    fn fmt<W: fmt::Write>(&self, f: &mut fmt::Formatter<W>) -> fmt::Result {
        write!(f, "{}", self.ticks)
    }
}

impl FromStr for Ticks {
    type Err = ParseIntError;

    ghost from_str_gives = { λ text r. ReadsTicks text r × ExplainsUnsignedError 10 text r };

    fn from_str(text: &str) -> Result<Ticks, ParseIntError> {
        let ticks = text.parse()?;
        Ok(Ticks { ticks })
    }
}
