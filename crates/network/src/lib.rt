// Drafts, which grow line by line, and the networks that they are sealed as.
#![tactic(auto)]

pub mod adding;
pub mod checks;
pub mod draft;
pub mod drafting;
pub mod fault;
pub mod naming;
pub mod network;
pub mod questions;
