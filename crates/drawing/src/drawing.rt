// One word drawn with the pen into the draft.
ghost use Rattle.std.specs.Prelude.{◌≡◌, ◌<◌, ◌≤◌, true, length, option_copied};
ghost use Rattle.lines.specs.Limits.{max_pins};
ghost use Rattle.names.specs.Kept.{bytes_of};
ghost use Rattle.names.specs.Names.{lawful_name};
ghost use Rattle.network.specs.Drafts.{sketch};
ghost use Rattle.sheets.specs.Sheet.{max_digits};
ghost use Rattle.grammar.specs.Views.{view};
ghost use Rattle.drawing.specs.Faults.{answered};
ghost use Rattle.drawing.specs.Fits.{inner_pins, Ready, InputReady, Fits};
ghost use Rattle.drawing.specs.Pens.{open_stack, picture};
ghost use Rattle.drawing.specs.Pictures.{label, draw_input, draw_name, draw_delay, draw_close, draw_word};

use crate::fault::{SheetFault, at};
use crate::pen::Pen;
use crate::value::value;
use families::family::Family;
use grammar::word::{Opening, Word};
use names::name::Name;
use network::checks::check_delay;
use network::draft::Draft;

impl Pen {
    // The bracket of an input form.
    fn draw_input(&self, draft: &Draft, place: usize) -> Result<(), SheetFault>
        ensures { draw_input (picture self.now (sketch draft.now)) place ≡ answered result (picture self.now (sketch draft.now)) }
    {
        at(draft.check_input(), place)?;
        Ok(())
    }

    // A name: between cells the form's, in a cell a pin's.
    fn draw_name(&mut self, draft: &Draft, bytes: &[u8], place: usize) -> Result<(), SheetFault>
        requires lawful { lawful_name bytes.now ≡ true }
        requires few { inner_pins (open_stack self.old.stack) < max_pins }
        ensures { draw_name (picture self.old (sketch draft.now)) bytes.now place ≡ answered result (picture self.new (sketch draft.now)) }
    {
        if self.stack.is_empty() {
            at(draft.check_name(bytes), place)?;
            self.name = Name::of(bytes);
            return Ok(());
        }
        let line = draft.line_named(bytes).ok_or(SheetFault::NoLine { place })?;
        self.stack.add_pin(line);
        Ok(())
    }

    // A delay: between cells it ends an input form.
    fn draw_delay(
        &mut self,
        draft: &mut Draft,
        digits: &[u8],
        place: usize,
    ) -> Result<(), SheetFault>
        requires short { length digits.now ≤ max_digits }
        requires ready { InputReady (sketch draft.old) (bytes_of self.old.name) (open_stack self.old.stack) }
        ensures { draw_delay (picture self.old (sketch draft.old)) digits.now place ≡ answered result (picture self.new (sketch draft.new)) }
    {
        let delay = value(digits);
        if self.stack.is_empty() {
            at(draft.add_input(self.name.as_bytes(), delay), place)?;
            return Ok(());
        }
        at(check_delay(delay), place)?;
        self.stack.set_delay(delay);
        Ok(())
    }

    // The name of a cell that is no longer open: the form's, where it stood in no other cell.
    fn label(&self) -> Option<&[u8]>
        ensures { option_copied result ≡ label (bytes_of self.now.name) (open_stack self.now.stack) }
    {
        self.stack.is_empty().then_some(self.name.as_bytes())
    }

    // A closing bracket: of the innermost open cell, which is added and is a pin of the cell around it, or of a form.
    fn close<F: Family>(&mut self, draft: &mut Draft, family: &F) -> Result<(), SheetFault>
        requires { Ready (sketch draft.old) (bytes_of self.old.name) (open_stack self.old.stack) }
        ensures { draw_close (F.Family.assigns family.now) (picture self.old (sketch draft.old)) (open_stack self.old.stack) ≡ answered result (picture self.new (sketch draft.new)) }
    {
        let Some(cell) = self.stack.pop() else {
            return Ok(());
        };
        let word = cell.word.as_bytes();
        let pins = cell.pins.as_slice();
        let line = at(
            draft.add_cell(family, self.label(), word, cell.delay, pins),
            cell.place,
        )?;
        self.stack.add_pin(line);
        Ok(())
    }

    // Draws a word, or refuses it, as that word or bracket alone would be.
    pub(crate) fn draw_word<F: Family>(
        &mut self,
        draft: &mut Draft,
        family: &F,
        word: Word,
    ) -> Result<(), SheetFault>
        requires { Fits (picture self.old (sketch draft.old)) (view word) }
        ensures { draw_word (F.Family.assigns family.now) (picture self.old (sketch draft.old)) (view word.entry) ≡ answered result (picture self.new (sketch draft.new)) }
    {
        match word {
            Word::Open(Opening::Input, _, place) => self.draw_input(draft, place),
            Word::Open(Opening::Line, _, _) => Ok(()),
            Word::Open(Opening::Cell, _, place) => {
                self.stack.open(place);
                Ok(())
            }
            Word::Name(bytes, place) => self.draw_name(draft, bytes, place),
            Word::CellWord(bytes, _) => {
                self.stack.set_word(Name::of(bytes));
                Ok(())
            }
            Word::Delay(digits, place) => self.draw_delay(draft, digits, place),
            Word::Close(_, _) => self.close(draft, family),
        }
    }
}
