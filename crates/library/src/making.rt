// Libraries made of entries, as families.
ghost use Rattle.std.specs.Prelude.{◌≡◌};
ghost use Rattle.library.specs.Entries.{NoneBad, AssignsByEntries, assigned};
ghost use Rattle.library.specs.Laws.{library_lawful};

use crate::checking::look_up;
use crate::entry::Entry;
use crate::library::Library;
use families::family::Family;

impl Library {
    // Makes a library of entries that were checked.
    pub fn new(entries: Vec<Entry>) -> Self
        requires { NoneBad entries.items }
        ensures same { result.entries.items ≡ entries.items }
        ensures law { AssignsByEntries result.entries.items }
    {
        Library { entries }
    }
}

// A library assigns the table of its entry for the word and the number of pins.
impl Family for Library {
    ghost assigns = { λ library. assigned library.entries.items };

    ghost lawful = { λ library. library_lawful library.entries.items library.good };

    fn table(&self, word: &[u8], pins: usize) -> Option<u16> {
        look_up(&self.entries, word, pins)
    }
}
