// What a kept name is.
ghost use Rattle.std.specs.Prelude.{◌≡◌, ◌≤◌, length};
ghost use Rattle.names.specs.Names.{max_name};

use crate::MAX_NAME;

// The bytes of a name, or of a cell word, kept in place: at most eight. They stand in an array with their number beside it,
// and in no memory of their own, so that a name is `Copy`, and a draft that has its memory takes a name and cannot fail.
#[derive(Clone, Copy)]
pub struct Name {
    pub(crate) bytes: [u8; MAX_NAME],
    pub(crate) len: usize,
    ghost short: { (len ≤ max_name) × (length bytes ≡ max_name) },
}
