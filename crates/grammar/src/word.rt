// The words of a sheet: each a part of it, with its place, counted in bytes from 0.

// What an opening bracket opens.
#[derive(Clone, Copy, Debug, PartialEq, Eq)]
pub enum Opening {
    Input,
    Line,
    Cell,
}

// By a rule of this project each kind of word is a case that holds its part of the sheet and its place.
#[derive(Clone, Copy)]
pub enum Word<'a> {
    Open(Opening, &'a [u8], usize),
    Name(&'a [u8], usize),
    CellWord(&'a [u8], usize),
    Delay(&'a [u8], usize),
    Close(&'a [u8], usize),
}

// The words of a sheet, in their order.
#[derive(Drop)]
pub struct Words<'a> {
    pub(crate) list: Vec<Word<'a>>,
}
