// Reading a sheet: its words, or why the text is no sheet.
ghost use Rattle.std.specs.Prelude.{◌≡◌, IfOk, vec_len};
ghost use Rattle.grammar.specs.Sheets.{words_in, ReadsSheet};
ghost use Rattle.grammar.specs.Views.{views};

use crate::fault::GrammarFault;
use crate::reader::Reader;
use crate::room::Room;
use crate::word::{Word, Words};
use std::alloc::{AllocError, Global};

// The most bytes of a sheet.
pub const MAX_SHEET: usize = 65_536;

// How many cells may stand in one another, the outermost counted.
pub const MAX_DEPTH: usize = 8;

impl<'a> Room<'a> {
    // Asks for the memory. Only this call can meet want of it.
    pub fn new(heap: Global) -> Result<Room<'a>, AllocError>
        ensures { IfOk result (λ room. vec_len room.list ≡ 0) }
    {
        let list = Vec::with_capacity(heap, MAX_SHEET)?;
        Ok(Room { list })
    }

    // The words of a sheet, or why the text is none. The grammar is checked over the whole text.
    pub fn read(self, sheet: &'a [u8]) -> Result<Words<'a>, GrammarFault>
        ensures { ReadsSheet sheet.now result }
    {
        if sheet.len() > MAX_SHEET {
            return Err(GrammarFault::TooLong);
        }
        let Room { mut list } = self;
        list.clear();
        let reader = Reader {
            sheet,
            place: 0,
            words: list,
        };
        let list = reader.forms()?;
        Ok(Words { list })
    }
}

impl<'a> Words<'a> {
    // The words as a slice.
    pub fn as_slice(&self) -> &[Word<'a>]
        ensures { views result.now ≡ words_in self.now }
    {
        self.list.as_slice()
    }
}
