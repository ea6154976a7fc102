// A study of a network: it settles, seeks and tells the worst, while delays and ties change.
#![tactic(auto)]

pub mod ceilings;
pub mod checks;
pub mod delays;
pub mod opening;
pub mod questions;
pub mod study;
pub mod ties;
pub mod views;
