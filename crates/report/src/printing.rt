// Replies as text.
ghost use Rattle.std.specs.Prelude.{◌≡◌, ◌+◌, ◌*◌, ◌≤◌, ◌++◌, map, vec_len};
ghost use Rattle.lines.specs.Limits.{max_inputs};
ghost use Rattle.names.specs.Kept.{bytes_of};
ghost use Rattle.turns.specs.Asked.{told};
ghost use Rattle.report.specs.Texts.{max_form, max_answer};
ghost use Rattle.report.specs.Told.{told_form, told_forms};

use crate::text::Text;
use names::name::Name;
use times::ticks::Ticks;
use turns::calls::Reply;

impl Text {
    // The reply to a call for the worst of the line of that name.
    fn push_reply(&mut self, name: Name, inputs: usize, reply: Reply<Ticks>)
        requires room { vec_len self.old.bytes + max_form ≤ max_answer }
        requires few { inputs ≤ max_inputs }
        ensures items { self.new.bytes.items ≡ self.old.bytes.items ++ told_form inputs (bytes_of name) (told reply) }
        ensures len { vec_len self.new.bytes ≤ vec_len self.old.bytes + max_form }
    {
        let Reply::Reached {
            outcome: Ok(greatest),
            vector,
            work: _,
        } = reply
        else {
            return;
        };
        let shown = inputs.min(vector.len());
        self.push_worst(name.as_bytes(), greatest.time.ticks, &vector[..shown]);
    }

    // The replies to calls for the worst of the lines of these names.
    pub(crate) fn push_replies(&mut self, names: &[Name], inputs: usize, replies: Vec<Reply<Ticks>>)
        requires room { vec_len self.old.bytes + max_form * vec_len replies ≤ max_answer }
        requires few { inputs ≤ max_inputs }
        ensures { self.new.bytes.items ≡ self.old.bytes.items ++ told_forms inputs (map bytes_of names.now) (map told replies.items) }
    {
        for (reply, name) in replies.into_iter().zip(names) {
            self.push_reply(*name, inputs, reply);
        }
    }
}
