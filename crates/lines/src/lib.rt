// The lines of a network, and the limits that drafts and networks keep.
#![tactic(auto)]

pub mod delay;
pub mod limits;
pub mod line;
