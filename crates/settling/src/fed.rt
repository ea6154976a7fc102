// A cell with the latest times of the lines that feed it.
ghost use Rattle.std.specs.Prelude.{length};
ghost use Rattle.lines.specs.Lines.{LawfulCell};

use crate::latest::Latest;
use lines::line::Cell;

// A cell, and the latest times of the first lines, among which are those at its pins.
#[derive(Drop)]
pub(crate) struct Fed<'a, T> {
    pub(crate) cell: Cell,
    pub(crate) work: &'a [Latest<T>],
    ghost lawful: { LawfulCell (length work.now) cell },
}
