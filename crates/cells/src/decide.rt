// When the pins of a cell decide its output.
ghost use Rattle.std.specs.Prelude.{◌≡◌, ℕ, ◌^◌, ◌<◌};
ghost use Rattle.cells.specs.Deciding.{settled_by, Decided, forcing_time, decide, DecideDecides, DecidedOnce, EarlierDecidesNoLater, OneOutputDecidesFirst};
ghost use Rattle.cells.specs.Pins.{at_pin};

use crate::order::sooner_of;
use crate::pins::Pins;
use crate::table::Table;
use times::time::Time;

// The pins settled at or before a time.
fn settled_at<T: Time>(times: Pins<T>, at: T) -> Pins<bool>
    ensures { (pin : ℕ) → at_pin result pin ≡ settled_by T.kind (at_pin times) at pin }
{
    times.map(|time| time.at_or_before(at))
}

impl Table {
    // A pin's time, where the pins settled by then force the output in `row`.
    fn forcing_time<T: Time>(self, row: usize, times: Pins<T>, pin: usize) -> Option<T>
        requires row { row < 2 ^ self.pins }
        ensures { result ≡ forcing_time T.kind self.outputs self.pins row (at_pin times) pin }
    {
        let time = times.get(pin);
        let enough = self.is_forced(settled_at(times, time), row);
        enough.then_some(time)
    }

    // The time at which the pins decide the output in `row`; the start where there is no pin.
    pub fn decided_at<T: Time>(self, row: usize, times: Pins<T>) -> T
        requires row { row < 2 ^ self.pins }
        ensures value { result ≡ decide T.kind self.outputs self.pins row (at_pin times) }
        ensures decided { 0 < self.pins → Decided T.kind self.outputs self.pins row (at_pin times) result }
    {
        (0..self.pins)
            .fold(
                None,
                |best, pin| sooner_of(self.forcing_time(row, times, pin), best),
            )
            .unwrap_or(T::start())
    }
}

// What is proved of deciding, for every kind of time.
pub fn deciding<T: Time>()
    ensures decides { DecideDecides T.kind }
    ensures once { DecidedOnce T.kind }
    ensures earlier { EarlierDecidesNoLater T.kind }
    ensures one_output { OneOutputDecidesFirst T.kind }
{}
