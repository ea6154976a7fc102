// The calls of a study and what they answer: faults, answers, vectors as bytes, calls and replies with their buffers.
#![tactic(auto)]

pub mod answers;
pub mod bits;
pub mod calls;
pub mod fault;
pub mod stands;
