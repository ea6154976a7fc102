// The searches of a network over the settings of its inputs.
#![tactic(auto)]

pub mod aim;
pub mod line;
pub mod seek;
pub mod stands;
pub mod worst;
