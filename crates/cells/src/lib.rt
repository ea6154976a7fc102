// Truth tables, and when the settled pins of a cell decide its output.
#![tactic(auto)]

pub mod decide;
pub mod order;
pub mod pins;
pub mod table;
pub mod tables;
