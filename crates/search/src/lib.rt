// Settings and the searches over them: what they come to, and the steps of the search from one setting to the next;
// and buffers that take what a list gives.
#![tactic(auto)]

pub mod places;
pub mod stands;
pub mod walk;
