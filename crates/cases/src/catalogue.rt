// The family of a script, and the entries of its next library.
use families::family::Family;
use families::pair::Pair;
use gates::plain::Plain;
use library::board::board;
use library::checking::check_entries;
use library::entry::Entry;
use library::fault::LibraryFault;
use library::library::Library;
use names::MAX_NAME;
use names::name::Name;
use std::alloc::{AllocError, Global};

// The plain family, paired with the board library that is paired with a library of entries.
// While that is empty, it answers as the plain family paired with the board library alone.
pub type Catalogue = Pair<Plain, Pair<Library, Library>>;

// The library of the entries, or why there is none.
pub fn library_of(entries: Vec<Entry>) -> Result<Library, LibraryFault> {
    check_entries(&entries)?;
    Ok(Library::new(entries))
}

// The family with a library.
pub fn with_library(heap: Global, library: Library) -> Result<Catalogue, AllocError> {
    let second = Pair {
        first: board(heap)?,
        second: library,
    };
    Ok(Pair {
        first: Plain,
        second,
    })
}

// The entry of that name. One of more than eight bytes cannot be kept: the empty name, as unlawful, stands for it.
pub fn entry(name: &[u8], pins: usize, table: u16) -> Entry {
    let name = if name.len() <= MAX_NAME {
        Name::of(name)
    } else {
        Name::of(b"")
    };
    Entry { name, pins, table }
}

// What the family has for a word and a number of pins, in hexadecimal.
pub fn ask(
    heap: Global,
    family: &Catalogue,
    word: &[u8],
    pins: usize,
) -> Result<String, AllocError> {
    match family.table(word, pins) {
        Some(table) => format!(in heap; "{table:x}"),
        None => format!(in heap; "none"),
    }
}
