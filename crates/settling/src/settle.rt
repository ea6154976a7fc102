// The final value and settle time of every line under a vector.
ghost use Rattle.std.specs.Prelude.{◌≡◌, ◌≤◌, ◌++◌, map, length, drop};
ghost use Rattle.lines.specs.Lines.{inputs, LawfulDriver};
ghost use Rattle.settling.specs.Settle.{in_vector, tied_by, as_settled, settle_driver, settled, settled_value, settled_time, Settles};

use crate::input::input_time;
use crate::pins::at_pins;
use crate::tied::Tied;
use cells::table::Table;
use lines::delay::delay_of;
use lines::line::{Driver, Line};
use times::time::Time;

// A line's final value and settle time.
#[derive(Clone, Copy)]
pub struct Settled<T> {
    pub value: bool,
    pub time: T,
}

impl Tied<'_> {
    // How a line settles, from how the lines below it do. A line and its number are read from the same walk over the lines,
    // and what a lawful driver asks is of the two together.
    fn settle_line<T: Time>(
        self,
        line: Line,
        number: usize,
        vector: &[bool],
        values: &[bool],
        times: &[T],
    ) -> Settled<T>
        requires driver { LawfulDriver (inputs self.lines.now) number line.driver }
        requires vector { inputs self.lines.now ≤ length vector.now }
        requires below { (number ≤ length values.now) × (number ≤ length times.now) }
        ensures { result ≡ settle_driver T.kind (tied_by self.entry.ties.now) (in_vector vector.now) number (as_settled T.kind values.now times.now) line line.driver }
    {
        match line.driver {
            Driver::Input => {
                let value = vector[number];
                let tied = self.ties[number].is_some();
                Settled {
                    value,
                    time: input_time(line, value, tied),
                }
            }
            Driver::Output(cell) => {
                let table = Table::of_cell(cell);
                let row = table.row_of(at_pins(cell, values, false));
                let decided = table.decided_at(row, at_pins(cell, times, T::start()));
                let value = table.output(row);
                Settled {
                    value,
                    time: decided.after(delay_of(line, value)),
                }
            }
        }
    }

    // Writes the final value and settle time of every line into the first places of two buffers; further places stay.
    // There is one place for each input in the vector.
    pub fn settle<T: Time>(self, vector: &[bool], values: &mut [bool], times: &mut [T])
        requires vector { inputs self.lines.now ≤ length vector.now }
        requires values { length self.lines.now ≤ length values.old }
        requires times { length self.lines.now ≤ length times.old }
        ensures values { values.new ≡ map settled_value (settled T.kind (tied_by self.entry.ties.now) self.entry.lines.now (in_vector vector.now)) ++ drop (length self.entry.lines.now) values.old }
        ensures times { times.new ≡ map settled_time (settled T.kind (tied_by self.entry.ties.now) self.entry.lines.now (in_vector vector.now)) ++ drop (length self.entry.lines.now) times.old }
        ensures rules { Settles T.kind (tied_by self.entry.ties.now) self.entry.lines.now (in_vector vector.now) (as_settled T.kind values.new times.new) }
    {
        for (number, line) in self.lines.iter().enumerate() {
            let settled = self.settle_line(*line, number, vector, values, times);
            values[number] = settled.value;
            times[number] = settled.time;
        }
    }
}
