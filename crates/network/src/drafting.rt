// Drafts made, emptied, looked into and sealed.
ghost use Rattle.std.specs.Prelude.{◌≡◌, length, IfOk};
ghost use Rattle.network.specs.Drafts.{sketch, sealed};
ghost use Rattle.network.specs.Least.{NothingWrong};
ghost use Rattle.network.specs.Refusals.{Checked, SealWrong};
ghost use Rattle.network.specs.Sketches.{empty, line_named, FirstLine};

use crate::draft::Draft;
use crate::fault::DraftFault;
use crate::naming::find_line;
use crate::network::Network;
use lines::limits::MAX_LINES;
use std::alloc::{AllocError, Global};

impl Draft {
    // An empty draft, with room for the most lines.
    pub fn new(heap: Global) -> Result<Self, AllocError>
        ensures { IfOk result (λ draft. sketch draft ≡ empty) }
    {
        let lines = Vec::with_capacity(heap, MAX_LINES)?;
        let names = Vec::with_capacity(heap, MAX_LINES)?;
        Ok(Draft {
            lines,
            names,
            inputs: 0,
        })
    }

    // Empties the draft, which keeps its room.
    pub fn clear(&mut self)
        ensures { sketch self.new ≡ empty }
    {
        self.lines.clear();
        self.names.clear();
        self.inputs = 0;
    }

    // The number of lines so far.
    pub fn line_count(&self) -> usize
        ensures { result ≡ length (sketch self.now).lines }
    {
        self.lines.len()
    }

    // The number of the first line of that name.
    pub fn line_named(&self, name: &[u8]) -> Option<usize>
        ensures value { result ≡ line_named 0 name.now (sketch self.now).names }
        ensures first { FirstLine (sketch self.now).names name.now result }
    {
        find_line(&self.names, name)
    }

    // Whether the draft can be sealed.
    pub fn check_seal(&self) -> Result<(), DraftFault>
        ensures { Checked (SealWrong (sketch self.now)) result }
    {
        if self.inputs == 0 {
            return Err(DraftFault::NoInput);
        }
        Ok(())
    }

    // Seals a draft that was checked, and uses it up.
    pub fn seal(self) -> Network
        requires { NothingWrong (SealWrong (sketch self)) }
        ensures { sealed result ≡ sketch self }
    {
        let Draft {
            lines,
            names,
            inputs,
        } = self;
        Network {
            lines,
            names,
            inputs,
        }
    }
}
