// Delays as numbers. The reader has seen that they are digits and few, so there is no error that `parse` could answer with.
ghost use Rattle.std.specs.Prelude.{◌≡◌, ◌≤◌, length};
ghost use Rattle.sheets.specs.Sheet.{max_digits};
ghost use Rattle.drawing.specs.Drawing.{number_from};

// What the digits write.
pub(crate) fn value(digits: &[u8]) -> u32
    requires { length digits.now ≤ max_digits }
    ensures { result ≡ number_from 0 digits.now }
{
    // No fold: that the number fits hangs on how many digits were read, of which a closure over it and a digit knows nothing.
    let mut n = 0;
    for digit in digits {
        n = n * 10 + u32::from(digit.saturating_sub(b'0'));
    }
    n
}
