// What a truth table gives, and when some of the pins force it.
ghost use Rattle.std.specs.Prelude.{◌≡◌, ◌^◌, ◌<◌, ◌≤◌, Decides};
ghost use Rattle.cells.specs.Pins.{at_pin};
ghost use Rattle.cells.specs.Tables.{bit, row, agrees, Forces};

use crate::pins::Pins;
use crate::table::Table;
use lines::line::Cell;

// Bit i of n.
pub fn bit_of(n: usize, i: usize) -> bool
    requires { i < 64 }
    ensures { result ≡ bit n i }
{
    (n >> i) % 2 == 1
}

impl Table {
    // The table of a cell.
    pub fn of_cell(cell: Cell) -> Table
        requires few { cell.count ≤ 4 }
        ensures outputs { result.outputs ≡ cell.table }
        ensures pins { result.pins ≡ cell.count }
    {
        Table {
            outputs: cell.table as usize,
            pins: cell.count,
        }
    }

    // The number of the row with the values at the pins.
    pub fn row_of(self, values: Pins<bool>) -> usize
        ensures row { result ≡ row self.pins (at_pin values) }
        ensures below { result < 2 ^ self.pins }
    {
        (0..self.pins).fold(0, |row, pin| {
            if values.get(pin) {
                row + (1 << pin)
            } else {
                row
            }
        })
    }

    // The output in a row.
    pub fn output(self, row: usize) -> bool
        requires row { row < 2 ^ self.pins }
        ensures { result ≡ bit self.outputs row }
    {
        bit_of(self.outputs, row)
    }

    // Whether the row `other` agrees with `row` at some of the pins.
    fn agrees_at(self, some: Pins<bool>, row: usize, other: usize) -> bool
        ensures { result ≡ agrees (at_pin some) self.pins row other }
    {
        (0..self.pins).all(|pin| !some.get(pin) || bit_of(other, pin) == bit_of(row, pin))
    }

    // Whether some of the pins force the output in `row`.
    pub fn is_forced(self, some: Pins<bool>, row: usize) -> bool
        requires row { row < 2 ^ self.pins }
        ensures { Decides result (Forces (at_pin some) self.outputs self.pins row) }
    {
        (0..1 << self.pins).all(|other| {
            self.output(other) == self.output(row) || !self.agrees_at(some, row, other)
        })
    }
}
