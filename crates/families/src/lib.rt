// Families of cells: what a cell word means.
#![tactic(auto)]

pub mod family;
pub mod pair;
