// The latest time of every line at each value under a setting.
ghost use Rattle.std.specs.Prelude.{◌≡◌, ℕ, ◌^◌, ◌<◌, ◌≤◌, ◌++◌, length, drop, is_some};
ghost use Rattle.std.specs.Option.{IfSome, unwrap_or};
ghost use Rattle.lines.specs.Lines.{inputs, LawfulDriver};
ghost use Rattle.cells.specs.Tables.{every_below};
ghost use Rattle.cells.specs.Pins.{at_pin};
ghost use Rattle.settling.specs.Settle.{tied_by};
ghost use Rattle.settling.specs.Latest.{in_setting, latest_at, latest_input, latest_line, latest_pin, latest_by_row, latest_output, latest_driver, latest, LatestTimes};

use crate::fed::Fed;
use crate::input::input_time;
use crate::tied::Tied;
use cells::order::later_of;
use cells::pins::Pins;
use cells::table::Table;
use cells::tables::bit_of;
use lines::delay::delay_of;
use lines::line::{Driver, Line};
use times::time::Time;

// A line's latest time at each value, or none.
#[derive(Clone, Copy)]
pub struct Latest<T> {
    pub zero: Option<T>,
    pub one: Option<T>,
}

impl<T: Copy> Latest<T> {
    // The latest time at a value, or none.
    pub fn at(self, value: bool) -> Option<T>
        ensures { result ≡ latest_at self value }
    {
        if value { self.one } else { self.zero }
    }
}

// The latest time of an input at a value, where the setting may have decided it.
fn input_latest<T: Time>(line: Line, tied: bool, decided: Option<bool>, value: bool) -> Option<T>
    ensures { result ≡ latest_input T.kind tied line decided value }
{
    decided
        .is_none_or(|decided| decided == value)
        .then_some(input_time(line, value, tied))
}

impl<T: Time> Fed<'_, T> {
    // The latest times of the cell's pins at their values in a row, where each has one.
    fn row_times(&self, row: usize) -> Option<Pins<T>>
        ensures every { is_some result ≡ every_below self.now.cell.count (λ pin. is_some (latest_pin (latest_line self.now.work.now) self.now.cell row pin)) }
        ensures times { IfSome result (λ at. (pin : ℕ) → pin < self.now.cell.count → at_pin at pin ≡ unwrap_or (latest_pin (latest_line self.now.work.now) self.now.cell row pin) T.kind.start) }
    {
        let mut at = Pins::all(T::start());
        for (pin, line) in self.cell.pins[..self.cell.count].iter().enumerate() {
            at = at.with(pin, self.work[*line].at(bit_of(row, pin))?);
        }
        Some(at)
    }

    // The latest time that a row gives the cell's line for a value, if it can.
    fn row_latest(&self, line: Line, value: bool, row: usize) -> Option<T>
        requires { row < 2 ^ self.now.cell.count }
        ensures { result ≡ latest_by_row T.kind (latest_line self.now.work.now) line self.now.cell value row }
    {
        let table = Table::of_cell(self.cell);
        if table.output(row) != value {
            return None;
        }
        let decided = table.decided_at(row, self.row_times(row)?);
        Some(decided.after(delay_of(line, value)))
    }

    // The latest time of the cell's line at a value: the greatest that a row gives.
    fn output_latest(&self, line: Line, value: bool) -> Option<T>
        ensures { result ≡ latest_output T.kind (latest_line self.now.work.now) line self.now.cell value }
    {
        // by number: a row is its number
        (0..1 << self.cell.count).fold(None, |best, row| {
            later_of(self.row_latest(line, value, row), best)
        })
    }
}

impl Tied<'_> {
    // The latest times of a line, from those of the lines below it.
    pub(crate) fn line_latest<T: Time>(
        self,
        line: Line,
        number: usize,
        setting: &[Option<bool>],
        work: &[Latest<T>],
    ) -> Latest<T>
        requires driver { LawfulDriver (inputs self.lines.now) number line.driver }
        requires setting { inputs self.lines.now ≤ length setting.now }
        requires below { number ≤ length work.now }
        ensures { result ≡ latest_driver T.kind (tied_by self.entry.ties.now) (in_setting setting.now) number (latest_line work.now) line line.driver }
    {
        match line.driver {
            Driver::Input => {
                let decided = setting[number];
                let tied = self.ties[number].is_some();
                Latest {
                    zero: input_latest(line, tied, decided, false),
                    one: input_latest(line, tied, decided, true),
                }
            }
            Driver::Output(cell) => {
                let fed = Fed { cell, work };
                Latest {
                    zero: fed.output_latest(line, false),
                    one: fed.output_latest(line, true),
                }
            }
        }
    }

    // Writes the latest times of every line into the first places of a buffer; further places stay.
    // There is one place for each input in the setting.
    pub fn latest_times<T: Time>(self, setting: &[Option<bool>], work: &mut [Latest<T>])
        requires setting { inputs self.lines.now ≤ length setting.now }
        requires room { length self.lines.now ≤ length work.old }
        ensures work { work.new ≡ latest T.kind (tied_by self.entry.ties.now) self.entry.lines.now (in_setting setting.now) ++ drop (length self.entry.lines.now) work.old }
        ensures rules { LatestTimes T.kind (tied_by self.entry.ties.now) self.entry.lines.now (in_setting setting.now) (latest_line work.new) }
    {
        for (number, line) in self.lines.iter().enumerate() {
            work[number] = self.line_latest(*line, number, setting, work);
        }
    }
}
