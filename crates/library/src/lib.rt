// Libraries: families that are made of entries.
#![tactic(auto)]

pub mod board;
pub mod checking;
pub mod entry;
pub mod fault;
pub mod library;
pub mod making;
