// Answers as text.
#![tactic(auto)]

mod answering;
pub mod desk;
mod forms;
mod plan;
mod planning;
mod printing;
mod text;
