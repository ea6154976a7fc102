// The calls of a study with their own arguments and buffers, and the replies that hand the buffers back.
use crate::answers::Greatest;
use crate::fault::StudyFault;
use seeking::seek::Looked;
use settling::latest::Latest;

// A call with its arguments and buffers. Values and vectors are bytes 0 and 1, and not `bool`, since the call itself refuses
// another byte; what is written is as what is read.
#[derive(Drop)]
pub enum Call<T> {
    // The final value and settle time of every line under a vector.
    Settle {
        vector: Vec<u8>,
        values: Vec<bool>,
        times: Vec<T>,
    },
    // The first vector that settles a line to a value at or after a bound.
    Seek {
        line: usize,
        value: u8,
        bound: T,
        vector: Vec<u8>,
        work: Vec<Latest<T>>,
    },
    // A line's greatest settle time.
    Worst {
        line: usize,
        vector: Vec<u8>,
        work: Vec<Latest<T>>,
    },
    // A delay no greater than the present one.
    Shorten {
        line: usize,
        delay: u32,
    },
    // A greater delay than the present one.
    Lengthen {
        line: usize,
        delay: u32,
    },
    // An untied input is fixed at a value.
    Tie {
        line: usize,
        value: u8,
    },
    // A tied input is freed.
    Untie {
        line: usize,
    },
}

// What a call answered, with its buffers.
#[derive(Drop)]
pub enum Reply<T> {
    // To a settle.
    Settled {
        outcome: Result<(), StudyFault>,
        values: Vec<bool>,
        times: Vec<T>,
    },
    // To a seek: the line's settle time under the first late vector, or none where no vector that agrees with the ties is
    // late; a look is one setting tested.
    Sought {
        outcome: Result<Looked<T>, StudyFault>,
        vector: Vec<u8>,
        work: Vec<Latest<T>>,
    },
    // To a worst.
    Reached {
        outcome: Result<Greatest<T>, StudyFault>,
        vector: Vec<u8>,
        work: Vec<Latest<T>>,
    },
    // To a shorten, a lengthen, a tie or an untie.
    Changed {
        outcome: Result<(), StudyFault>,
    },
}
