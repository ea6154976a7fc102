// What a line is. Lines are numbered from 0; each is an input or the output of a cell.
use crate::limits::MAX_PINS;

// A cell: bit r of the table is the output in row r; pin i, for i below count, is fed by line pins[i].
// The pins stand in an array with their number beside it, and in no memory of their own, so that a line is `Copy`.
#[derive(Clone, Copy)]
pub struct Cell {
    pub table: u16,
    pub count: usize,
    pub pins: [usize; MAX_PINS],
}

// What drives a line.
#[derive(Clone, Copy)]
pub enum Driver {
    Input,
    Output(Cell),
}

// A line with its delay, in ticks.
#[derive(Clone, Copy)]
pub struct Line {
    pub driver: Driver,
    pub delay: u32,
}
