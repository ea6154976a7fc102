// What a network is.
ghost use Rattle.std.specs.Prelude.{◌≡◌, ◌≤◌, vec_len};
ghost use Rattle.lines.specs.Limits.{max_inputs, max_lines};
ghost use Rattle.lines.specs.Lines.{Lawful, inputs as inputs_among};

use lines::line::Line;
use names::name::Name;

// A sealed draft: no line is added any more, and at least one is an input.
// Lines and names are two lists and not one of pairs: a study takes the list of lines over as it is,
// and can want no memory for another.
#[derive(Drop)]
pub struct Network {
    pub lines: Vec<Line>,
    pub names: Vec<Option<Name>>,
    pub inputs: usize,
    ghost sizes: { (vec_len names ≡ vec_len lines) × (vec_len lines ≤ max_lines) × (inputs ≤ max_inputs) × (1 ≤ inputs) },
    ghost counted: { inputs ≡ inputs_among lines.items },
    ghost lawful: { ∥ Lawful lines.items ∥₁ },
}
