// Room for the words of a sheet.
ghost use Rattle.std.specs.Prelude.{◌≤◌, vec_capacity};
ghost use Rattle.sheets.specs.Sheet.{max_sheet};

use crate::word::Word;

// Room for the words of the longest sheet: no word is shorter than a byte. Reading a sheet uses it up.
#[derive(Drop)]
pub struct Room<'a> {
    pub(crate) list: Vec<Word<'a>>,
    ghost room: { max_sheet ≤ vec_capacity list },
}
