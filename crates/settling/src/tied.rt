// The lines of a network with the ties of its inputs.
ghost use Rattle.std.specs.Prelude.{◌≤◌, length};
ghost use Rattle.lines.specs.Lines.{inputs, Lawful};

use lines::line::Line;

// Lines, and for each input the value that it is tied to, or None; further places of the ties mean nothing. A vector or a
// setting is lent beside it for each call, so that it has a place for each input stays a clause of the call.
#[derive(Clone, Copy)]
pub struct Tied<'a> {
    pub lines: &'a [Line],
    pub ties: &'a [Option<bool>],
    ghost lawful: { ∥ Lawful lines.now ∥₁ },
    ghost wide: { inputs lines.now ≤ length ties.now },
}
