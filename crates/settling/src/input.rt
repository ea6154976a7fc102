// The settle time of an input.
ghost use Rattle.std.specs.Prelude.{◌≡◌};
ghost use Rattle.settling.specs.Settle.{input_time};

use lines::delay::delay_of;
use lines::line::Line;
use times::time::Time;

// The time at which an input settles to a value, tied or not.
pub fn input_time<T: Time>(line: Line, value: bool, tied: bool) -> T
    ensures { result ≡ input_time T.kind tied line value }
{
    let _ = tied;
    T::start().after(delay_of(line, value))
}
