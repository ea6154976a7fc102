// Sheets answered and compared byte for byte with what is stored.
ghost use Rattle.std.specs.Prelude.{◌≤◌, length};

use crate::files::{bytes_in, names_in};
use crate::tally::Tally;
use families::pair::Pair;
use gates::plain::Plain;
use library::board::board;
use report::desk::Desk;
use std::alloc::{AllocError, Global};

// The most bytes that are shown of a text.
const MAX_SHOWN: usize = 100;

// The first bytes of a text, made readable.
pub fn shown(heap: Global, text: &[u8]) -> Result<String, AllocError> {
    let front = &text[..text.len().min(MAX_SHOWN)];
    let more = if front.len() < text.len() { "..." } else { "" };
    format!(in heap; "\"{}\"{more}", front.escape_ascii())
}

// How many bytes at the front of two texts are the same.
fn same_front(a: &[u8], b: &[u8]) -> usize
    ensures { (result ≤ length a.now) × (result ≤ length b.now) }
{
    a.iter()
        .zip(b.iter())
        .position(|(x, y)| x != y)
        .unwrap_or(a.len().min(b.len()))
}

// What differs in the answer to a sheet, from the first byte that does.
fn difference(heap: Global, path: &str, expected: &[u8], got: &[u8]) -> Result<String, AllocError> {
    let at = same_front(expected, got);
    let expected = shown(heap, &expected[at..])?;
    let got = shown(heap, &got[at..])?;
    format!(in heap; "{path}.sheet: from byte {at} expected {expected}, got {got}")
}

// The sheets of a folder, each beside the answer to it.
pub fn check_sheets(rt: &HostRuntime, folder: &str, kind: &str) -> anyhow::Result<Tally> {
    let heap = rt.alloc();
    let mut tally = Tally::new(heap);
    let folder = format!(in heap; "{folder}/{kind}")?;
    for name in names_in(rt, &folder, ".sheet")? {
        let path = format!(in heap; "{folder}/{name}")?;
        let difference = check_sheet(rt, &path)?;
        tally.cases.add(difference.is_none());
        if let Some(difference) = difference {
            tally.differences.push(difference)?;
        }
    }
    Ok(tally)
}

// The answer to a sheet that is drawn with the plain family paired with the board library.
fn answer_of(heap: Global, sheet: &[u8]) -> Result<Vec<u8>, AllocError> {
    let family = Pair {
        first: Plain,
        second: board(heap)?,
    };
    Ok(Desk::new(heap)?.answer(&family, sheet))
}

// The bytes of the file at that path with that ending.
fn read(rt: &HostRuntime, path: &str, ending: &str) -> anyhow::Result<Vec<u8>> {
    let path = format!(in rt.alloc(); "{path}{ending}")?;
    bytes_in(rt, &path)
}

// What differs in the answer to one sheet, by its path without the ending.
fn check_sheet(rt: &HostRuntime, path: &str) -> anyhow::Result<Option<String>> {
    let heap = rt.alloc();
    let expected = read(rt, path, ".out")?;
    let sheet = read(rt, path, ".sheet")?;
    let got = answer_of(heap, &sheet)?;
    if got == expected {
        return Ok(None);
    }
    Ok(Some(difference(heap, path, &expected, &got)?))
}
