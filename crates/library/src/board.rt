// The board library.
ghost use Rattle.std.specs.Prelude.{IfOk};
ghost use Rattle.library.specs.Board.{BoardEntries};

use crate::entry::Entry;
use crate::library::Library;
use names::name::Name;
use std::alloc::{AllocError, Global};

// The board library: maj, the majority of three pins, and mux, of which pin 0 selects pin 1 or pin 2.
pub fn board(heap: Global) -> Result<Library, AllocError>
    ensures { IfOk result (λ library. BoardEntries library.entries.items) }
{
    let entries = vec![in heap;
        Entry {
            name: Name::of(b"maj"),
            pins: 3,
            table: 0xe8,
        },
        Entry {
            name: Name::of(b"mux"),
            pins: 3,
            table: 0xe4,
        },
    ]?;
    Ok(Library::new(entries))
}
