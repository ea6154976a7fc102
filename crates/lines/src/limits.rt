// Limits of drafts and networks.

// The greatest delay, in ticks.
pub const MAX_DELAY: u32 = 1_000_000;

// The most inputs.
pub const MAX_INPUTS: usize = 24;

// The most lines, inputs counted.
pub const MAX_LINES: usize = 512;

// The most pins of a cell.
pub const MAX_PINS: usize = 4;
