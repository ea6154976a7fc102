// A sheet drawn into a draft: from its bytes to lines and names.
#![tactic(auto)]

mod cells;
mod drawing;
pub mod fault;
mod pen;
pub mod read;
mod value;
