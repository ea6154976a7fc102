// Time in ticks and stages.
ghost use Rattle.std.specs.Prelude.{◌≡◌, Some, Decides};
ghost use Rattle.times.specs.Kinds.{staged_kind, TicksThenStages, StagedSum};
ghost use Rattle.times.specs.Clocks.{staged_laws, staged_longer};
ghost use Rattle.times.specs.Written.{staged_text, ReadsStaged, staged_error_text};
ghost use Rattle.times.specs.declared.staged.StagedError.TheVariants.{Number};

use crate::time::Time;
use std::error::Error;
use std::fmt;
use std::num::ParseIntError;
use std::str::FromStr;

// Ticks, and the stages passed: each delay adds its ticks and one stage. Times are ordered by ticks, then by stages.
#[derive(Clone, Copy, Debug, PartialEq, Eq, PartialOrd, Ord)]
pub struct Staged {
    pub ticks: u64,
    pub stages: u32,
}

impl Time for Staged {
    ghost kind = { staged_kind };

    ghost lawful = { staged_laws };

    ghost longer = { staged_longer };

    fn start() -> Staged
        ensures value { result ≡ staged_kind.start }
        ensures zero { (result.ticks ≡ 0) × (result.stages ≡ 0) }
    {
        Staged {
            ticks: 0,
            stages: 0,
        }
    }

    fn at_or_before(self, other: Staged) -> bool
        ensures value { result ≡ staged_kind.at_or_before self other }
        ensures order { Decides result (TicksThenStages self other) }
    {
        self <= other
    }

    fn after(self, delay: u32) -> Staged
        ensures value { result ≡ staged_kind.after self delay }
        ensures sum { StagedSum self delay result }
    {
        match self.ticks.checked_add(delay as u64) {
            Some(ticks) => Staged {
                ticks,
                stages: self.stages.saturating_add(1),
            },
            None => Staged {
                ticks: u64::MAX,
                stages: u32::MAX,
            },
        }
    }
}

// As `10:3`.
impl fmt::Display for Staged {
    ghost output = { λ t. Some (staged_text t) };

    fn fmt<W: fmt::Write>(&self, f: &mut fmt::Formatter<W>) -> fmt::Result {
        write!(f, "{}:{}", self.ticks, self.stages)
    }
}

// Why a text is no time in ticks and stages.
#[derive(Clone, Debug, PartialEq, Eq, Drop)]
pub enum StagedError {
    NoStages,
    Number(ParseIntError),
}

impl From<ParseIntError> for StagedError {
    ghost from_gives = { λ why e. e ≡ Number why };

    fn from(why: ParseIntError) -> StagedError {
        StagedError::Number(why)
    }
}

// By hand, since it promises its text.
impl fmt::Display for StagedError {
    ghost output = { staged_error_text };

    fn fmt<W: fmt::Write>(&self, f: &mut fmt::Formatter<W>) -> fmt::Result {
        match self {
            StagedError::NoStages => write!(f, "a time has no stages"),
            StagedError::Number(error) => write!(f, "{error}"),
        }
    }
}

impl Error for StagedError {}

impl FromStr for Staged {
    type Err = StagedError;

    ghost from_str_gives = { ReadsStaged };

    fn from_str(text: &str) -> Result<Staged, StagedError> {
        let (ticks, stages) = text.split_once(':').ok_or(StagedError::NoStages)?;
        Ok(Staged {
            ticks: ticks.parse()?,
            stages: stages.parse()?,
        })
    }
}
