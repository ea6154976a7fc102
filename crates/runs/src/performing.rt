// One call made with its own buffers. The calls that have buffers stand in functions of their own, which differ in the call,
// in what it is asked and in the buffers that it takes.
ghost use Rattle.std.specs.Prelude.{◌≡◌, false};
ghost use Rattle.study.specs.Standing.{Promises, Unchanged};
ghost use Rattle.turns.specs.Answers.{accepted};
ghost use Rattle.turns.specs.Asked.{asked, told, settle, seek, worst};

use settling::latest::Latest;
use study::study::Study;
use times::time::Time;
use turns::calls::{Call, Reply};

// Settles with owned buffers, which come back in the reply.
fn perform_settle<T: Time>(
    study: &Study<T>,
    vector: Vec<u8>,
    mut values: Vec<bool>,
    mut times: Vec<T>,
) -> Reply<T>
    ensures { Promises T.kind study.now study.now (settle vector.items values.items times.items) (told result) }
{
    let outcome = study.settle(&vector, &mut values, &mut times);
    Reply::Settled {
        outcome,
        values,
        times,
    }
}

// Seeks with owned buffers, which come back in the reply.
fn perform_seek<T: Time>(
    study: &mut Study<T>,
    line: usize,
    value: u8,
    bound: T,
    mut vector: Vec<u8>,
    mut work: Vec<Latest<T>>,
) -> Reply<T>
    ensures promise { Promises T.kind study.old study.new (seek line value bound vector.items work.items) (told result) }
    ensures refused { accepted (told result) ≡ false → Unchanged study.old study.new }
{
    let outcome = study.seek(line, value, bound, &mut vector, &mut work);
    Reply::Sought {
        outcome,
        vector,
        work,
    }
}

// The worst with owned buffers, which come back in the reply.
fn perform_worst<T: Time>(
    study: &Study<T>,
    line: usize,
    mut vector: Vec<u8>,
    mut work: Vec<Latest<T>>,
) -> Reply<T>
    ensures { Promises T.kind study.now study.now (worst line vector.items work.items) (told result) }
{
    let outcome = study.worst(line, &mut vector, &mut work);
    Reply::Reached {
        outcome,
        vector,
        work,
    }
}

// Makes one call; its buffers come back in the reply.
pub fn perform<T: Time>(study: &mut Study<T>, call: Call<T>) -> Reply<T>
    ensures promise { Promises T.kind study.old study.new (asked call) (told result) }
    ensures refused { accepted (told result) ≡ false → Unchanged study.old study.new }
{
    match call {
        Call::Settle {
            vector,
            values,
            times,
        } => perform_settle(study, vector, values, times),
        Call::Seek {
            line,
            value,
            bound,
            vector,
            work,
        } => perform_seek(study, line, value, bound, vector, work),
        Call::Worst { line, vector, work } => perform_worst(study, line, vector, work),
        Call::Shorten { line, delay } => Reply::Changed {
            outcome: study.shorten(line, delay),
        },
        Call::Lengthen { line, delay } => Reply::Changed {
            outcome: study.lengthen(line, delay),
        },
        Call::Tie { line, value } => Reply::Changed {
            outcome: study.tie(line, value),
        },
        Call::Untie { line } => Reply::Changed {
            outcome: study.untie(line),
        },
    }
}
