// Text put together in room that was asked for before, and piece by piece: `write!` into a `Vec` can fail for memory, and an
// answer cannot.
ghost use Rattle.std.specs.Prelude.{◌≡◌, ◌+◌, ◌≤◌, ◌++◌, length, IfOk, vec_len, vec_capacity, decimal};
ghost use Rattle.lines.specs.Limits.{max_inputs};
ghost use Rattle.names.specs.Names.{max_name};
ghost use Rattle.turns.specs.Plain.{is_one, bits};
ghost use Rattle.report.specs.Texts.{max_form, max_answer, refused_text, digit_of, vector_text, worst_text};

use itoa::Buffer;
use lines::limits::MAX_LINES;
use std::alloc::{AllocError, Global};

// The most bytes of an answer.
const MAX_ANSWER: usize = 64 * MAX_LINES;

// The text of an answer so far, with room for the most that it can come to. How much of it must still be free differs from
// call to call, so it stays a clause of each.
#[derive(Drop)]
pub(crate) struct Text {
    pub(crate) bytes: Vec<u8>,
    ghost room: { max_answer ≤ vec_capacity bytes },
}

impl Text {
    // No text yet.
    pub(crate) fn new(heap: Global) -> Result<Text, AllocError>
        ensures { IfOk result (λ text. vec_len text.bytes ≡ 0) }
    {
        let bytes = Vec::with_capacity(heap, MAX_ANSWER)?;
        Ok(Text { bytes })
    }

    // These bytes.
    fn push_bytes(&mut self, bytes: &[u8])
        requires { vec_len self.old.bytes + length bytes.now ≤ max_answer }
        ensures items { self.new.bytes.items ≡ self.old.bytes.items ++ bytes.now }
        ensures len { vec_len self.new.bytes ≡ vec_len self.old.bytes + length bytes.now }
    {
        let Ok(()) = self.bytes.extend_from_slice(bytes) else {
            unreachable()
        };
    }

    // The digits of a number, without needless zeros.
    fn push_number(&mut self, n: u64)
        requires { vec_len self.old.bytes + length (decimal n) ≤ max_answer }
        ensures items { self.new.bytes.items ≡ self.old.bytes.items ++ decimal n }
        ensures len { vec_len self.new.bytes ≡ vec_len self.old.bytes + length (decimal n) }
    {
        let mut buffer = Buffer::new();
        self.push_bytes(buffer.format(n).as_bytes());
    }

    // A refusal, on a line of its own.
    #[tactic(auto, using(crate::proofs::Digits::few_digits))]
    pub(crate) fn push_refused(&mut self, number: u8, place: usize)
        requires { vec_len self.old.bytes + max_form ≤ max_answer }
        ensures items { self.new.bytes.items ≡ self.old.bytes.items ++ refused_text number place }
    {
        self.push_bytes(b"(refused ");
        self.push_number(u64::from(number));
        self.push_bytes(b" ");
        self.push_number(place as u64);
        self.push_bytes(b")\n");
    }

    // The digits of a vector, given by its bytes, input 0 first.
    fn push_vector(&mut self, vector: &[u8])
        requires { vec_len self.old.bytes + length vector.now ≤ max_answer }
        ensures items { self.new.bytes.items ≡ self.old.bytes.items ++ vector_text (bits vector.now) }
        ensures len { vec_len self.new.bytes ≡ vec_len self.old.bytes + length vector.now }
    {
        for b in vector {
            self.bytes.push_reserved(digit_of(*b));
        }
    }

    // The worst of a line form, on a line of its own.
    #[tactic(auto, using(crate::proofs::Digits::few_digits))]
    pub(crate) fn push_worst(&mut self, name: &[u8], ticks: u64, vector: &[u8])
        requires room { vec_len self.old.bytes + max_form ≤ max_answer }
        requires short { length name.now ≤ max_name }
        requires few { length vector.now ≤ max_inputs }
        ensures items { self.new.bytes.items ≡ self.old.bytes.items ++ worst_text name.now ticks (bits vector.now) }
        ensures len { vec_len self.new.bytes ≤ vec_len self.old.bytes + max_form }
    {
        self.push_bytes(b"(worst ");
        self.push_bytes(name);
        self.push_bytes(b" ");
        self.push_number(ticks);
        self.push_bytes(b" ");
        self.push_vector(vector);
        self.push_bytes(b")\n");
    }
}

fn digit_of(b: u8) -> u8
    ensures { result ≡ digit_of (is_one b) }
{
    b'0' + u8::from(b == 1)
}
