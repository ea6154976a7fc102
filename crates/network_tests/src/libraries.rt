// Libraries: entries that are good and bad, and what a library assigns.
use families::family::Family;
use library::board::board;
use library::checking::check_entries;
use library::entry::Entry;
use library::fault::LibraryFault;
use names::name::Name;
use std::test::Fail;

// An entry beside one for maj with three pins, and whether it is bad.
#[test]
fn entries_at_their_edges(rt: HostRuntime) {
    let maj = Name::of(b"maj");
    let first = Entry {
        name: maj,
        pins: 3,
        table: 0xe8,
    };
    for (name, pins, table, bad) in [
        (maj, 2, 0x8, false),
        (maj, 3, 0x80, true),
        (Name::of(b"major"), 3, 0xff, false),
        (Name::of(b"Maj"), 3, 0xe8, true),
        (Name::of(b"3maj"), 3, 0xe8, true),
        (Name::of(b""), 3, 0xe8, true),
        (Name::of(b"or"), 0, 0, true),
        (Name::of(b"or"), 1, 0x3, false),
        (Name::of(b"or"), 1, 0x4, true),
        (Name::of(b"or"), 3, 0x100, true),
        (Name::of(b"or"), 4, 0xffff, false),
        (Name::of(b"or"), 5, 0, true),
    ] {
        let answer = check_entries(&[first, Entry { name, pins, table }]);
        assert_eq!(rt;
            answer,
            if bad {
                Err(LibraryFault { entry: 1 })
            } else {
                Ok(())
            }
        );
    }
}

// Of several bad entries the first is told, with the number 15.
#[test]
fn first_bad_entry(rt: HostRuntime) {
    let maj = Entry {
        name: Name::of(b"maj"),
        pins: 3,
        table: 0xe8,
    };
    let none = Entry {
        name: Name::of(b"maj"),
        pins: 0,
        table: 0,
    };
    assert_eq!(rt; check_entries(&[]), Ok(()));
    assert_eq!(rt;
        check_entries(&[maj, none, maj]),
        Err(LibraryFault { entry: 1 })
    );
    assert_eq!(rt;
        check_entries(&[none, maj, maj]),
        Err(LibraryFault { entry: 0 })
    );
    assert_eq!(rt; LibraryFault { entry: 0 }.number(), 15);
}

// The table that the board library has for a word and a number of pins.
#[test]
fn board_tables(rt: HostRuntime) -> Result<(), Fail> {
    let library = board(rt.alloc())?;
    assert_eq!(rt; library.table(b"maj", 3), Some(0xe8));
    assert_eq!(rt; library.table(b"mux", 3), Some(0xe4));
    assert_eq!(rt; library.table(b"mux", 2), None);
    assert_eq!(rt; library.table(b"mu", 3), None);
    Ok(())
}
