// Lines added to a draft.
ghost use Rattle.std.specs.Prelude.{◌≡◌, ℕ, ◌^◌, ◌<◌, ◌≤◌, length, vec_len, IfOk, MatchBool, option_copied, slice_index};
ghost use Rattle.lines.specs.Limits.{max_delay, max_inputs, max_lines, max_pins};
ghost use Rattle.names.specs.Kept.{bytes_of};
ghost use Rattle.network.specs.Drafts.{sketch, InputAdd, CellAdd};
ghost use Rattle.network.specs.Refusals.{Checked, LabelWrong};
ghost use Rattle.network.specs.Sketches.{name_bytes, places, with_input, with_cell};

use crate::checks::check_delay;
use crate::draft::Draft;
use crate::fault::DraftFault;
use families::family::Family;
use lines::limits::{MAX_LINES, MAX_PINS};
use lines::line::{Cell, Driver, Line};
use names::is_cell_word;
use names::name::Name;

// Whether each pin is below the line.
fn are_below(pins: &[usize], line: usize) -> bool
    ensures { MatchBool result ((k : ℕ) → k < length pins.now → slice_index pins.now k < line) ((k : ℕ) × (k < length pins.now) × (line ≤ slice_index pins.now k)) }
{
    pins.iter().all(|pin| *pin < line)
}

// The pins in a cell's places.
fn placed(pins: &[usize]) -> [usize; MAX_PINS]
    requires { length pins.now ≤ max_pins }
    ensures { result ≡ places pins.now }
{
    let mut all = [0; MAX_PINS];
    all[..pins.len()].copy_from_slice(pins);
    all
}

impl Draft {
    // Puts an input behind the last line.
    fn push_input(&mut self, name: Name, delay: u32)
        requires few { self.old.inputs < max_inputs }
        requires room { vec_len self.old.lines < max_lines }
        requires only { self.old.inputs ≡ vec_len self.old.lines }
        requires slow { delay ≤ max_delay }
        ensures { sketch self.new ≡ with_input (sketch self.old) (bytes_of name) delay }
    {
        self.lines.push_reserved(Line {
            driver: Driver::Input,
            delay,
        });
        self.names.push_reserved(Some(name));
        self.inputs += 1;
    }

    // Puts a cell behind the last line.
    fn push_cell(&mut self, name: Option<Name>, table: u16, delay: u32, pins: &[usize])
        requires room { vec_len self.old.lines < max_lines }
        requires some { 1 ≤ length pins.now }
        requires few { length pins.now ≤ max_pins }
        requires lower { (pin : ℕ) → pin < length pins.now → slice_index pins.now pin < vec_len self.old.lines }
        requires fits { table < 2 ^ (2 ^ length pins.now) }
        requires slow { delay ≤ max_delay }
        ensures { sketch self.new ≡ with_cell (sketch self.old) (name_bytes name) table delay pins.now }
    {
        let cell = Cell {
            table,
            count: pins.len(),
            pins: placed(pins),
        };
        self.lines.push_reserved(Line {
            driver: Driver::Output(cell),
            delay,
        });
        self.names.push_reserved(name);
    }

    // Adds an input, and answers the number of its line.
    pub fn add_input(&mut self, name: &[u8], delay: u32) -> Result<usize, DraftFault>
        ensures { InputAdd self.old self.new name.now delay result }
    {
        self.check_name(name)?;
        check_delay(delay)?;
        self.check_input()?;
        let line = self.lines.len();
        self.push_input(Name::of(name), delay);
        Ok(line)
    }

    // The name of a new line as it is kept, if the line has one and can have it.
    fn kept_name(&self, name: Option<&[u8]>) -> Result<Option<Name>, DraftFault>
        ensures checked { Checked (LabelWrong (sketch self.now) (option_copied name.entry)) result }
        ensures kept { IfOk result (λ kept. name_bytes kept ≡ option_copied name.entry) }
    {
        let Some(bytes) = name else {
            return Ok(None);
        };
        self.check_name(bytes)?;
        Ok(Some(Name::of(bytes)))
    }

    // Adds a cell, and its name, if it has one, and answers the number of its line.
    pub fn add_cell<F: Family>(
        &mut self,
        family: &F,
        name: Option<&[u8]>,
        word: &[u8],
        delay: u32,
        pins: &[usize],
    ) -> Result<usize, DraftFault>
        ensures { CellAdd (F.Family.assigns family.now) self.old self.new (option_copied name.entry) word.now delay pins.now result }
    {
        if !is_cell_word(word) {
            return Err(DraftFault::Unlawful);
        }
        let kept = self.kept_name(name)?;
        let Some(table) = family.table(word, pins.len()) else {
            return Err(DraftFault::NoTable);
        };
        check_delay(delay)?;
        let line = self.lines.len();
        if line >= MAX_LINES {
            return Err(DraftFault::Full);
        }
        if !are_below(pins, line) {
            return Err(DraftFault::PinNotBelow);
        }
        self.push_cell(kept, table, delay, pins);
        Ok(line)
    }
}
