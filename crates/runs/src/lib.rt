// Runs of calls on a study, each call with its own buffers.
#![tactic(auto)]

pub mod performing;
pub mod replaying;
pub mod room;
