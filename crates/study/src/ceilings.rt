// Ceilings looked at and removed.
ghost use Rattle.std.specs.Prelude.{◌≡◌, ◌<◌, ◌≤◌, length, vec_len};
ghost use Rattle.study.specs.Standing.{place, covers, Cleared};

use crate::study::Study;
use times::time::Time;

// Whether a ceiling is there and at or before a bound.
pub(crate) fn is_covered<T: Time>(ceiling: Option<T>, bound: T) -> bool
    ensures { result ≡ covers T.kind bound ceiling }
{
    ceiling.is_some_and(|at| at.at_or_before(bound))
}

// Removes what the first places hold.
pub(crate) fn clear<T: Copy>(places: &mut [Option<T>], count: usize)
    requires { count ≤ length places.old }
    ensures { Cleared count places.old places.new }
{
    places[..count].fill(None);
}

impl<T: Time> Study<T> {
    // The place of a line's ceiling for a value. Line and value share one number, since the ceilings lie in a buffer of the
    // caller's, which has two places for each line.
    pub(crate) fn ceiling_place(&self, line: usize, value: u8) -> usize
        requires present { line < vec_len self.now.lines }
        requires bit { value ≤ 1 }
        ensures place { result ≡ place line value }
        ensures within { result < vec_len self.now.ceilings }
    {
        2 * line + usize::from(value)
    }
}
