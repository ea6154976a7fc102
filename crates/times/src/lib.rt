// Kinds of time: what one is, and two of them.
#![tactic(auto)]

pub mod staged;
pub mod ticks;
pub mod time;
