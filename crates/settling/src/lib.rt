// Final values and settle times of a network's lines under a vector, and their latest times under a setting.
#![tactic(auto)]

pub mod again;
mod fed;
pub mod input;
pub mod latest;
mod pins;
pub mod settle;
pub mod stands;
pub mod tied;
