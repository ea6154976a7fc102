// A run of calls from the opening of a study on.
ghost use Rattle.std.specs.Prelude.{◌≤◌, [], map, vec_len, vec_capacity};
ghost use Rattle.runs.specs.Replays.{Replayed};
ghost use Rattle.study.specs.Standing.{plain_of, Stands};
ghost use Rattle.turns.specs.Asked.{asked, told};
ghost use Rattle.turns.specs.Runs.{Run};

use crate::performing::perform;
use crate::room::Room;
use network::network::Network;
use study::opening::check_open;
use study::study::Study;
use times::time::Time;
use turns::calls::{Call, Reply};
use turns::fault::StudyFault;

// Makes the calls one after another on a study that was just opened.
fn replies_of<T: Time>(study: &mut Study<T>, calls: Vec<Call<T>>, room: Room<T>) -> Vec<Reply<T>>
    requires opened { Stands T.kind (plain_of study.old) [] study.old }
    requires enough { vec_len calls ≤ vec_capacity room.replies }
    ensures { Run T.kind (plain_of study.old) [] (map asked calls.items) (map told result.items) }
{
    let Room { mut replies } = room;
    for call in calls {
        replies.push_reserved(perform(study, call));
    }
    replies
}

// Opens a study of a network and makes some calls on it, one after another.
pub fn replay<T: Time>(
    network: Network,
    ceilings: Vec<Option<T>>,
    calls: Vec<Call<T>>,
    room: Room<T>,
) -> Result<Vec<Reply<T>>, StudyFault>
    ensures { Replayed T.kind network.lines.items (vec_len ceilings) (vec_capacity room.replies) calls.items result }
{
    check_open(&network, &ceilings)?;
    if room.replies.capacity() < calls.len() {
        return Err(StudyFault::ShortBuffer);
    }
    let mut study = Study::open(network, ceilings);
    Ok(replies_of(&mut study, calls, room))
}
