// The draft of a script.
use crate::catalogue::Catalogue;
use crate::script::CellStep;
use drawing::read::read_sheet;
use grammar::room::Room;
use network::draft::Draft;
use network::fault::DraftFault;
use network::network::Network;
use std::alloc::{AllocError, Global};

// A draft that answers in the words of scripts.
#[derive(Drop)]
pub struct Sketch {
    heap: Global,
    draft: Draft,
}

// What adding a line came to.
fn added(heap: Global, outcome: Result<usize, DraftFault>) -> Result<String, AllocError> {
    match outcome {
        Ok(line) => format!(in heap; "line {line}"),
        Err(fault) => refused(heap, fault.number()),
    }
}

impl Sketch {
    pub fn new(heap: Global) -> Result<Sketch, AllocError> {
        let draft = Draft::new(heap)?;
        Ok(Sketch { heap, draft })
    }

    pub fn input(&mut self, name: &[u8], delay: u32) -> Result<String, AllocError> {
        let outcome = self.draft.add_input(name, delay);
        added(self.heap, outcome)
    }

    pub fn cell(&mut self, family: &Catalogue, cell: &CellStep) -> Result<String, AllocError> {
        let outcome = self.draft.add_cell(
            family,
            cell.name.as_deref(),
            &cell.word,
            cell.delay,
            &cell.pins,
        );
        added(self.heap, outcome)
    }

    pub fn draw(&mut self, family: &Catalogue, sheet: &[u8]) -> Result<String, AllocError> {
        let room = Room::new(self.heap)?;
        match read_sheet(&mut self.draft, family, room, sheet) {
            Ok(()) => format!(in self.heap; "lines {}", self.draft.line_count()),
            Err(fault) => {
                format!(in self.heap; "refused {} at {}", fault.number(), fault.place())
            }
        }
    }

    pub fn count(&self) -> Result<String, AllocError> {
        self.draft.line_count().to_string(self.heap)
    }

    // The network, or the draft again with its refusal.
    pub fn seal(self) -> Result<Network, (Sketch, DraftFault)> {
        match self.draft.check_seal() {
            Ok(()) => Ok(self.draft.seal()),
            Err(fault) => Err((self, fault)),
        }
    }
}

// A refusal by its number.
pub fn refused(heap: Global, number: u8) -> Result<String, AllocError> {
    format!(in heap; "refused {number}")
}
