// Entries that are looked up and checked.
ghost use Rattle.std.specs.Prelude.{◌≡◌, ◌^◌, ◌<◌, ◌≤◌, Decides, nat_lt};
ghost use Rattle.std.specs.List.{find};
ghost use Rattle.std.specs.Option.{option_copied};
ghost use Rattle.lines.specs.Limits.{max_pins};
ghost use Rattle.library.specs.Entries.{Bad, is_for, assigned};
ghost use Rattle.library.specs.Refusals.{EntriesChecked};

use crate::entry::Entry;
use crate::fault::LibraryFault;
use lines::limits::MAX_PINS;
use names::{is_name, is_same_word};

// Whether the entry is for that cell word and that number of pins.
fn is_for(entry: &Entry, word: &[u8], pins: usize) -> bool
    ensures { result ≡ is_for word.now pins entry.now }
{
    entry.pins == pins && is_same_word(entry.name.as_bytes(), word)
}

// The first entry for that cell word and that number of pins.
fn find_entry<'a>(entries: &'a [Entry], word: &[u8], pins: usize) -> Option<&'a Entry>
    ensures { option_copied result ≡ find (is_for word.now pins) entries.now }
{
    entries.iter().find(|entry| is_for(entry, word, pins))
}

// The table of the first entry for that cell word and that number of pins.
#[tactic(auto, using(crate::proofs::Finding::assigned_found))]
pub(crate) fn look_up(entries: &[Entry], word: &[u8], pins: usize) -> Option<u16>
    ensures { result ≡ assigned entries.now word.now pins }
{
    Some(find_entry(entries, word, pins)?.table)
}

// Whether the table has no bit past the rows.
fn fits(table: u16, pins: usize) -> bool
    requires { pins ≤ max_pins }
    ensures { result ≡ nat_lt table (2 ^ (2 ^ pins)) }
{
    (table as u32) < 1u32 << (1u32 << pins)
}

// Whether the entry may not come after the earlier ones.
fn is_bad(earlier: &[Entry], entry: &Entry) -> bool
    ensures { Decides result (Bad earlier.now entry.now) }
{
    let name = entry.name.as_bytes();
    !is_name(name)
        || entry.pins == 0
        || entry.pins > MAX_PINS
        || !fits(entry.table, entry.pins)
        || look_up(earlier, name, entry.pins).is_some()
}

// Whether a library can be made of the entries; if not, the first bad one.
pub fn check_entries(entries: &[Entry]) -> Result<(), LibraryFault>
    ensures { EntriesChecked entries.now result }
{
    // by number, since each is checked against those before it
    for (i, entry) in entries.iter().enumerate() {
        if is_bad(&entries[..i], entry) {
            return Err(LibraryFault { entry: i });
        }
    }
    Ok(())
}
