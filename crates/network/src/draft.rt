// What a draft is.
ghost use Rattle.std.specs.Prelude.{◌≡◌, ◌≤◌, vec_len, vec_capacity};
ghost use Rattle.lines.specs.Limits.{max_inputs, max_lines};
ghost use Rattle.lines.specs.Lines.{Lawful, inputs as inputs_among};

use lines::line::Line;
use names::name::Name;

// A network that is being drawn: its lines in order, and beside each its name, if it has one.
// Room for the most lines is reserved when it is made, so that no later call wants memory.
// Lines and names are two lists and not one of pairs: a study takes the list of lines over as it is,
// and can want no memory for another.
#[derive(Drop)]
pub struct Draft {
    pub(crate) lines: Vec<Line>,
    pub(crate) names: Vec<Option<Name>>,
    pub(crate) inputs: usize,
    ghost room: { (max_lines ≤ vec_capacity lines) × (max_lines ≤ vec_capacity names) },
    ghost sizes: { (vec_len names ≡ vec_len lines) × (vec_len lines ≤ max_lines) × (inputs ≤ max_inputs) },
    ghost counted: { inputs ≡ inputs_among lines.items },
    ghost lawful: { ∥ Lawful lines.items ∥₁ },
}
