// The delay that passes before a line settles.
ghost use Rattle.std.specs.Prelude.{◌≡◌};
ghost use Rattle.lines.specs.Lines.{delay_at};

use crate::line::Line;

// The delay that passes before the line settles at the value: one number for both values.
pub fn delay_of(line: Line, value: bool) -> u32
    ensures { result ≡ delay_at line value }
{
    let _ = value;
    line.delay
}
