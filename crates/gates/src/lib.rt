// The plain gates: their tables as a family of cells, and the two rules by which they settle.
#![tactic(auto)]

pub mod gate;
pub mod plain;
pub mod rules;
