// The truth table of a cell.
ghost use Rattle.std.specs.Prelude.{◌≤◌};

// The outputs of a cell with so many pins: bit r is the output in row r, and pin i has weight 2 ^ i in a row number. A row
// stays a plain number with the clause `row < 2 ^ pins`: rows are walked by number, and a type of a row with its table would
// be made anew for each.
#[derive(Clone, Copy)]
pub struct Table {
    pub outputs: usize,
    pub pins: usize,
    ghost few: { pins ≤ 4 },
}
