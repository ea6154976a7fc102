// The line forms of a network, answered from buffers that were asked for before.
ghost use Rattle.std.specs.Prelude.{◌≡◌, ◌*◌, ◌≤◌, vec_len, vec_capacity};
ghost use Rattle.lines.specs.Limits.{max_lines};
ghost use Rattle.network.specs.Drafts.{sealed};
ghost use Rattle.report.specs.Told.{FormsAdded};

use crate::plan::Plan;
use crate::text::Text;
use network::network::Network;
use runs::replaying::replay;
use runs::room::Room as Replies;
use times::ticks::Ticks;

// Room for the calls on a study, for its ceilings and the replies, and for the text of the answer.
#[derive(Drop)]
pub(crate) struct Forms {
    pub(crate) plan: Plan,
    pub(crate) ceilings: Vec<Option<Ticks>>,
    pub(crate) replies: Replies<Ticks>,
    pub(crate) text: Text,
    ghost unasked: { vec_len plan.calls ≡ 0 },
    ghost doubled: { vec_len ceilings ≡ 2 * max_lines },
    ghost replied: { max_lines ≤ vec_capacity replies.replies },
    ghost blank: { vec_len text.bytes ≡ 0 },
}

impl Forms {
    // The line forms of a network: the worst of each, by a study of it.
    pub(crate) fn answer(self, network: Network) -> Text
        ensures { FormsAdded (sealed network) self.text.bytes.items result.bytes.items }
    {
        let Forms {
            mut plan,
            ceilings,
            replies: room,
            mut text,
        } = self;
        plan.ask_all(&network);
        let inputs = network.input_count();
        let Plan {
            spare: _,
            calls,
            names,
        } = plan;
        let Ok(replies) = replay(network, ceilings, calls, room) else {
            unreachable()
        };
        text.push_replies(&names, inputs, replies);
        text
    }
}
