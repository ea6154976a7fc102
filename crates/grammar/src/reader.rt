// A reader over a lent sheet, moved forward by its methods, with the words that it has read.
ghost use Rattle.std.specs.Prelude.{◌+◌, ◌≤◌, length, vec_len, vec_capacity};

use crate::word::Word;

// Each word has a byte of its own, so that there is room for the words of what is not read yet.
#[derive(Drop)]
pub(crate) struct Reader<'a> {
    pub(crate) sheet: &'a [u8],
    pub(crate) place: usize,
    pub(crate) words: Vec<Word<'a>>,
    ghost within: { place ≤ length sheet.now },
    ghost room: { vec_len words + length sheet.now ≤ vec_capacity words + place },
}
