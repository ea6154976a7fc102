// A study that was opened, and what it answers to the steps of a script.
use crate::script::{Sizes, StudyStep};
use crate::sketch::refused;
use network::network::Network;
use seeking::seek::Looked;
use settling::latest::Latest;
use std::alloc::{AllocError, Global};
use std::error::Error;
use std::fmt::{self, Display};
use std::str::FromStr;
use study::opening::check_open;
use study::study::Study;
use times::time::Time;
use turns::answers::Greatest;
use turns::fault::StudyFault;

// A byte that no call writes into a vector.
const MARK: u8 = 170;

// A study with the numbers of inputs and of lines that its network had, since a study does not tell them.
#[derive(Drop)]
pub struct Opened<T: Time> {
    heap: Global,
    study: Study<T>,
    inputs: usize,
    lines: usize,
}

// A time that no line reaches: the greatest delay of each line adds up to less.
fn never<T: Time>() -> T {
    T::start().after(u32::MAX)
}

// Whether the places behind those that were written hold the mark.
fn places_stay<X: Copy + PartialEq>(places: &[X], written: usize, mark: X) -> bool {
    places.iter().skip(written).all(|place| *place == mark)
}

// The buffers of a seek or a worst, full of marks: no time that the work holds is to matter.
#[derive(Drop)]
struct Buffers<T> {
    vector: Vec<u8>,
    work: Vec<Latest<T>>,
}

impl<T: Time> Buffers<T> {
    fn new(heap: Global, sizes: Sizes) -> Result<Buffers<T>, AllocError> {
        let used = Latest {
            zero: Some(never()),
            one: Some(never()),
        };
        let vector = vec![in heap; MARK; sizes.first]?;
        let work = vec![in heap; used; sizes.second]?;
        Ok(Buffers { vector, work })
    }
}

// The bytes of a vector, as a digit for each; one that is no bit shows as `?`.
#[derive(Clone, Copy)]
struct Digits<'a>(&'a [u8]);

impl Display for Digits<'_> {
    fn fmt<W: fmt::Write>(&self, f: &mut fmt::Formatter<W>) -> fmt::Result {
        for b in self.0 {
            f.write_str(match b {
                0 => "0",
                1 => "1",
                _ => "?",
            })?;
        }
        Ok(())
    }
}

// What is answered where a place was written that is to stay.
fn overwritten(heap: Global) -> Result<String, AllocError> {
    format!(in heap; "a further place was written")
}

// What a change came to.
fn changed(heap: Global, outcome: Result<(), StudyFault>) -> Result<String, AllocError> {
    match outcome {
        Ok(()) => format!(in heap; "ok"),
        Err(fault) => refused(heap, fault.number()),
    }
}

impl<T: Time> Opened<T> {
    // Opens a study of the network, or gives that back with the refusal.
    pub fn open(
        heap: Global,
        network: Network,
        ceilings: Vec<Option<T>>,
    ) -> Result<Opened<T>, (Network, StudyFault)> {
        if let Err(fault) = check_open(&network, &ceilings) {
            return Err((network, fault));
        }
        let inputs = network.input_count();
        let lines = network.line_count();
        let study = Study::open(network, ceilings);
        Ok(Opened {
            heap,
            study,
            inputs,
            lines,
        })
    }
}

impl<T: Time + PartialEq + Display + FromStr> Opened<T>
where
    T::Err: Error,
{
    // What the study answers to a step.
    pub fn answer(&mut self, step: StudyStep) -> anyhow::Result<String> {
        let heap = self.heap;
        match step {
            StudyStep::Settle { vector, sizes } => Ok(self.settle(&vector, sizes)?),
            StudyStep::Seek {
                line,
                value,
                bound,
                sizes,
            } => self.seek(line, value, bound, sizes),
            StudyStep::Worst { line, sizes } => Ok(self.worst(line, sizes)?),
            StudyStep::Shorten { line, delay } => {
                Ok(changed(heap, self.study.shorten(line, delay))?)
            }
            StudyStep::Lengthen { line, delay } => {
                Ok(changed(heap, self.study.lengthen(line, delay))?)
            }
            StudyStep::Tie { line, value } => Ok(changed(heap, self.study.tie(line, value))?),
            StudyStep::Untie { line } => Ok(changed(heap, self.study.untie(line))?),
        }
    }

    // A settle, over each mark: a value that is written where the mark is the same does not show.
    fn settle(&self, vector: &[u8], sizes: Option<Sizes>) -> Result<String, AllocError> {
        let sizes = sizes.unwrap_or(Sizes {
            first: self.lines,
            second: self.lines,
        });
        let text = self.settle_over(vector, sizes, false)?;
        let again = self.settle_over(vector, sizes, true)?;
        if text == again {
            Ok(text)
        } else {
            format!(in self.heap; "{text}, but over other marks {again}")
        }
    }

    // A settle into buffers that hold a value, and a time that no line reaches.
    fn settle_over(&self, vector: &[u8], sizes: Sizes, mark: bool) -> Result<String, AllocError> {
        let mut values = vec![in self.heap; mark; sizes.first]?;
        let mut times = vec![in self.heap; never::<T>(); sizes.second]?;
        let outcome = self.study.settle(vector, &mut values, &mut times);
        let written = if outcome.is_ok() { self.lines } else { 0 };
        if !places_stay(&values, written, mark) || !places_stay(&times, written, never()) {
            return overwritten(self.heap);
        }
        match outcome {
            Ok(()) => self.settled(&values, &times),
            Err(fault) => refused(self.heap, fault.number()),
        }
    }

    // The value and the time of each line.
    fn settled(&self, values: &[bool], times: &[T]) -> Result<String, AllocError> {
        let mut text = String::new(self.heap);
        for (value, time) in values.iter().zip(times.iter()).take(self.lines) {
            let space = if text.is_empty() { "" } else { " " };
            write!(text, "{space}{}@{time}", u8::from(*value))?;
        }
        Ok(text)
    }

    // The buffers of a seek or a worst, of the sizes that are written or needed.
    fn buffers(&self, sizes: Option<Sizes>) -> Result<Buffers<T>, AllocError> {
        let needed = Sizes {
            first: self.inputs,
            second: self.lines,
        };
        Buffers::new(self.heap, sizes.unwrap_or(needed))
    }

    fn seek(
        &mut self,
        line: usize,
        value: u8,
        bound: &str,
        sizes: Option<Sizes>,
    ) -> anyhow::Result<String> {
        let bound = bound.parse::<T>()?;
        let Buffers {
            mut vector,
            mut work,
        } = self.buffers(sizes)?;
        let outcome = self.study.seek(line, value, bound, &mut vector, &mut work);
        Ok(self.sought(outcome, &vector)?)
    }

    // What a seek came to, which writes a vector only where it finds one.
    fn sought(
        &self,
        outcome: Result<Looked<T>, StudyFault>,
        vector: &[u8],
    ) -> Result<String, AllocError> {
        match outcome {
            Ok(
                Looked {
                    found: Some(time),
                    looks,
                },
            ) => {
                let digits = self.digits(vector)?;
                format!(in self.heap; "found {digits} time {time} looks {looks}")
            }
            _ if !places_stay(vector, 0, MARK) => overwritten(self.heap),
            Ok(Looked { found: None, looks }) => { format!(in self.heap; "nothing looks {looks}") }
            Err(fault) => refused(self.heap, fault.number()),
        }
    }

    fn worst(&self, line: usize, sizes: Option<Sizes>) -> Result<String, AllocError> {
        let Buffers {
            mut vector,
            mut work,
        } = self.buffers(sizes)?;
        let outcome = self.study.worst(line, &mut vector, &mut work);
        self.reached(outcome, &vector)
    }

    // What a worst came to.
    fn reached(
        &self,
        outcome: Result<Greatest<T>, StudyFault>,
        vector: &[u8],
    ) -> Result<String, AllocError> {
        match outcome {
            Ok(greatest) => {
                let time = greatest.time;
                let value = u8::from(greatest.value);
                let digits = self.digits(vector)?;
                format!(in self.heap; "time {time} value {value} vector {digits}")
            }
            Err(_) if !places_stay(vector, 0, MARK) => overwritten(self.heap),
            Err(fault) => refused(self.heap, fault.number()),
        }
    }

    // The digits of a vector, behind which no place was written.
    fn digits(&self, vector: &[u8]) -> Result<String, AllocError> {
        if !places_stay(vector, self.inputs, MARK) {
            return overwritten(self.heap);
        }
        let end = vector.len().min(self.inputs);
        Digits(&vector[..end]).to_string(self.heap)
    }
}
