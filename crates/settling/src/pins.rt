// What is known at the pins of a cell.
ghost use Rattle.std.specs.Prelude.{◌≡◌, ℕ, ◌<◌, ◌≤◌, length, slice_index_or};
ghost use Rattle.lines.specs.Lines.{feeder};
ghost use Rattle.cells.specs.Pins.{at_pin};

use cells::pins::Pins;
use lines::line::Cell;

// At each pin of the cell what is known of the line that feeds it; past them `other`. `row_times` reads pins too, but stops at
// the first without a time.
pub(crate) fn at_pins<X: Copy>(cell: Cell, known: &[X], other: X) -> Pins<X>
    requires few { cell.count ≤ 4 }
    requires known { (pin : ℕ) → pin < cell.count → feeder cell pin < length known.now }
    ensures { (pin : ℕ) → pin < cell.count → at_pin result pin ≡ slice_index_or known.now (feeder cell pin) other }
{
    let mut at = Pins::all(other);
    for (pin, line) in cell.pins[..cell.count].iter().enumerate() {
        at = at.with(pin, known[*line]);
    }
    at
}
