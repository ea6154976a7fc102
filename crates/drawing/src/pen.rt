// What the pen is: where the drawing of a sheet stands.
ghost use Rattle.std.specs.Prelude.{◌≡◌};
ghost use Rattle.drawing.specs.Pens.{opened};
ghost use Rattle.drawing.specs.Pictures.{just_open};

use arrayvec::ArrayVec;
use grammar::read::MAX_DEPTH;
use lines::limits::MAX_PINS;
use names::name::Name;

// A cell whose closing bracket is still to come.
#[derive(Drop)]
pub(crate) struct OpenCell {
    pub(crate) place: usize,
    pub(crate) word: Name,
    pub(crate) delay: u32,
    pub(crate) pins: ArrayVec<usize, MAX_PINS>,
}

// The open cells, the innermost last. There is a place for each, so that none can want memory.
#[derive(Drop)]
pub(crate) struct Stack {
    pub(crate) cells: ArrayVec<OpenCell, MAX_DEPTH>,
}

// The name of the form, and the open cells.
#[derive(Drop)]
pub(crate) struct Pen {
    pub(crate) stack: Stack,
    pub(crate) name: Name,
}

// A cell of which only the opening bracket was drawn, at the start. `ArrayVec` asks for a default, and a `Name` has none to derive it from.
impl Default for OpenCell {
    ghost is_default = { λ cell. opened cell ≡ just_open 0 };

    fn default() -> Self {
        OpenCell {
            place: 0,
            word: Name::of(b""),
            delay: 0,
            pins: ArrayVec::new(),
        }
    }
}
