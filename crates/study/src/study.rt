// What a study is.
ghost use Rattle.std.specs.Prelude.{◌≡◌, ◌*◌, ◌≤◌, length, vec_len};
ghost use Rattle.lines.specs.Limits.{max_inputs, max_lines};
ghost use Rattle.lines.specs.Lines.{Lawful, inputs as inputs_among};

use lines::limits::MAX_INPUTS;
use lines::line::Line;

// A network's lines with their present delays, the ties of its inputs, and for each line and value at most one ceiling:
// a bound at or after which no vector that agrees with the ties settles the line to the value.
// The ceiling of line L and value V stands at place 2L+V. The ties lie in an array, with how many of its places count, since
// to open a study can want no memory. `Keeps` relates a study before a call to the one after it, so it is no invariant.
#[derive(Drop)]
pub struct Study<T> {
    pub(crate) lines: Vec<Line>,
    pub(crate) inputs: usize,
    pub(crate) ties: [Option<bool>; MAX_INPUTS],
    pub(crate) ceilings: Vec<Option<T>>,
    ghost lawful: { ∥ Lawful lines.items ∥₁ },
    ghost counted: { inputs ≡ inputs_among lines.items },
    ghost few: { inputs ≤ max_inputs },
    ghost most: { vec_len lines ≤ max_lines },
    ghost whole: { length ties ≡ max_inputs },
    ghost room: { 2 * vec_len lines ≤ vec_len ceilings },
}
