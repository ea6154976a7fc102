// The stack of open cells.
ghost use Rattle.std.specs.Prelude.{◌≡◌, ◌<◌, [], ◌∷◌, length, MatchBool, MatchOption};
ghost use Rattle.lines.specs.Limits.{max_pins};
ghost use Rattle.names.specs.Kept.{bytes_of};
ghost use Rattle.sheets.specs.Sheet.{max_depth};
ghost use Rattle.drawing.specs.Fits.{inner_pins};
ghost use Rattle.drawing.specs.Pens.{opened, open_stack};
ghost use Rattle.drawing.specs.Pictures.{inner, inner_pin, with_word, with_delay, just_open};

use crate::pen::{OpenCell, Stack};
use arrayvec::ArrayVec;
use names::name::Name;

impl Stack {
    // No open cell.
    pub(crate) fn new() -> Self
        ensures { open_stack result ≡ [] }
    {
        Stack {
            cells: ArrayVec::new(),
        }
    }

    // Whether no cell is open.
    pub(crate) fn is_empty(&self) -> bool
        ensures { MatchBool result (open_stack self.now ≡ []) (0 < length (open_stack self.now)) }
    {
        self.cells.is_empty()
    }

    // Opens a cell in the innermost open one.
    pub(crate) fn open(&mut self, place: usize)
        requires { length (open_stack self.old) < max_depth }
        ensures { open_stack self.new ≡ just_open place ∷ open_stack self.old }
    {
        self.cells.push(OpenCell {
            place,
            ..OpenCell::default()
        });
    }

    // Takes the innermost open cell off, if there is one.
    pub(crate) fn pop(&mut self) -> Option<OpenCell>
        ensures { MatchOption result ((open_stack self.old ≡ []) × (open_stack self.new ≡ [])) (λ cell. open_stack self.old ≡ opened cell ∷ open_stack self.new) }
    {
        self.cells.pop()
    }

    // Gives the innermost open cell its word.
    pub(crate) fn set_word(&mut self, word: Name)
        ensures { open_stack self.new ≡ inner (with_word (bytes_of word)) (open_stack self.old) }
    {
        if let Some(cell) = self.cells.last_mut() {
            cell.word = word;
        }
    }

    // Gives the innermost open cell its delay.
    pub(crate) fn set_delay(&mut self, delay: u32)
        ensures { open_stack self.new ≡ inner (with_delay delay) (open_stack self.old) }
    {
        if let Some(cell) = self.cells.last_mut() {
            cell.delay = delay;
        }
    }

    // Gives the innermost open cell one pin more.
    pub(crate) fn add_pin(&mut self, line: usize)
        requires { inner_pins (open_stack self.old) < max_pins }
        ensures { open_stack self.new ≡ inner_pin line (open_stack self.old) }
    {
        if let Some(cell) = self.cells.last_mut() {
            cell.pins.push(line);
        }
    }
}
