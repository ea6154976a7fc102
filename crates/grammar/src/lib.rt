// The text of a sheet: its words, a reader over it, and where it stops being a sheet.
#![tactic(auto)]

pub mod fault;
pub mod read;
mod reader;
mod reading;
pub mod room;
mod scan;
pub mod word;
