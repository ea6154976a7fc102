// Room for the replies to a run's calls, reserved before the run.
ghost use Rattle.std.specs.Prelude.{◌≡◌, ◌≤◌, IfOk, vec_len, vec_capacity};

use std::alloc::{AllocError, Global};
use turns::calls::Reply;

// An empty list of replies with its room.
#[derive(Drop)]
pub struct Room<T> {
    pub(crate) replies: Vec<Reply<T>>,
    ghost empty: { vec_len replies ≡ 0 },
}

impl<T> Room<T> {
    // Reserves room for so many replies: the only call of a run that can want memory.
    pub fn reserve(heap: Global, count: usize) -> Result<Room<T>, AllocError>
        ensures { IfOk result (λ room. count ≤ vec_capacity room.replies) }
    {
        let replies = Vec::with_capacity(heap, count)?;
        Ok(Room { replies })
    }
}
