// What a library is.
ghost use Rattle.library.specs.Entries.{NoneBad};

use crate::entry::Entry;

// A library of entries, none of them bad.
#[derive(Drop)]
pub struct Library {
    pub(crate) entries: Vec<Entry>,
    ghost good: { NoneBad entries.items },
}
