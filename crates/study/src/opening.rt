// How a study is opened.
ghost use Rattle.std.specs.Prelude.{◌≡◌, ◌*◌, [], length, vec_len};
ghost use Rattle.network.specs.Least.{NothingWrong};
ghost use Rattle.turns.specs.Plain.{opened};
ghost use Rattle.turns.specs.Refusals.{Checked};
ghost use Rattle.study.specs.Standing.{plain_of, ceilings_of, Cleared, OpenWrong, Stands};

use crate::ceilings::clear;
use crate::study::Study;
use lines::limits::MAX_INPUTS;
use network::network::Network;
use times::time::Time;
use turns::fault::StudyFault;

// Whether the ceilings' buffer has two places for each line.
pub fn check_open<T: Time>(network: &Network, ceilings: &[Option<T>]) -> Result<(), StudyFault>
    ensures { Checked (OpenWrong (vec_len network.now.lines) (length ceilings.now)) result }
{
    if ceilings.len() < 2 * network.lines.len() {
        return Err(StudyFault::ShortBuffer);
    }
    Ok(())
}

impl<T: Time> Study<T> {
    // Opens a study of a network that was checked, and uses the network up: no tie, no ceiling; places of the buffer past
    // the two for each line stay.
    pub fn open(network: Network, ceilings: Vec<Option<T>>) -> Study<T>
        requires { NothingWrong (OpenWrong (vec_len network.lines) (vec_len ceilings)) }
        ensures plain { plain_of result ≡ opened network.lines.items }
        ensures ceilings { Cleared (2 * vec_len network.lines) ceilings.items (ceilings_of result) }
        ensures stands { Stands T.kind (opened network.lines.items) [] result }
    {
        let Network {
            lines,
            names,
            inputs,
        } = network;
        drop(names);
        let mut ceilings = ceilings;
        clear(&mut ceilings, 2 * lines.len());
        let ties = [None; MAX_INPUTS];
        Study {
            lines,
            inputs,
            ties,
            ceilings,
        }
    }
}
