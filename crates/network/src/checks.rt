// What is checked before a line is added.
ghost use Rattle.std.specs.Prelude.{◌<◌};
ghost use Rattle.network.specs.Drafts.{sketch};
ghost use Rattle.network.specs.Refusals.{Checked, NameWrong, DelayWrong, RoomWrong};

use crate::draft::Draft;
use crate::fault::DraftFault;
use lines::limits::{MAX_DELAY, MAX_INPUTS, MAX_LINES};
use names::is_name;

// Whether the delay is not above the greatest.
pub fn check_delay(delay: u32) -> Result<(), DraftFault>
    ensures { Checked (DelayWrong delay) result }
{
    if delay > MAX_DELAY {
        return Err(DraftFault::DelayAbove);
    }
    Ok(())
}

impl Draft {
    // Whether a new line can have the name.
    pub fn check_name(&self, name: &[u8]) -> Result<(), DraftFault>
        ensures { Checked (NameWrong (sketch self.now) name.now) result }
    {
        if !is_name(name) {
            return Err(DraftFault::Unlawful);
        }
        match self.line_named(name) {
            Some(_) => Err(DraftFault::Taken),
            None => Ok(()),
        }
    }

    // Whether there is room for one input more.
    pub fn check_input(&self) -> Result<(), DraftFault>
        ensures { Checked (RoomWrong (sketch self.now)) result }
    {
        if self.inputs >= MAX_INPUTS || self.lines.len() >= MAX_LINES {
            return Err(DraftFault::Full);
        }
        if self.inputs < self.lines.len() {
            return Err(DraftFault::InputAfterCell);
        }
        Ok(())
    }
}
