// What a script works on, and its answers to the script's steps.
use crate::catalogue::{Catalogue, ask, entry, library_of, with_library};
use crate::opened::Opened;
use crate::script::{DraftStep, Kind, Step, StudyStep, read_step};
use crate::sketch::{Sketch, refused};
use anyhow::{Context, bail};
use library::entry::Entry;
use library::library::Library;
use network::network::Network;
use std::alloc::{AllocError, Global};
use std::error::Error;
use std::fmt::Display;
use std::mem;
use std::str::FromStr;
use times::staged::Staged;
use times::ticks::Ticks;
use times::time::Time;

// A study that is open, of either kind of time.
#[derive(Drop)]
enum Subject {
    Ticks(Opened<Ticks>),
    Stages(Opened<Staged>),
}

// All that the steps of a script work on.
#[derive(Drop)]
pub struct Bench {
    heap: Global,
    kind: Kind,
    entries: Vec<Entry>,
    family: Catalogue,
    sheet: Vec<u8>,
    sketch: Sketch,
    sealed: Option<Network>,
    subject: Option<Subject>,
}

// The time when a delay has passed, as it is written.
fn after<T: Time + Display + FromStr>(
    heap: Global,
    time: &str,
    delay: u32,
) -> anyhow::Result<String>
where
    T::Err: Error,
{
    Ok(time.parse::<T>()?.after(delay).to_string(heap)?)
}

// The buffer of the ceilings, full of times.
fn ceilings<T: Time>(heap: Global, places: usize) -> Result<Vec<Option<T>>, AllocError> {
    Ok(vec![in heap; Some(T::start()); places]?)
}

impl Bench {
    // Ticks, the plain family paired with the board library, and an empty draft.
    pub fn new(heap: Global) -> Result<Bench, AllocError> {
        Ok(Bench {
            heap,
            kind: Kind::Ticks,
            entries: Vec::new(heap),
            family: with_library(heap, Library::new(Vec::new(heap)))?,
            sheet: Vec::new(heap),
            sketch: Sketch::new(heap)?,
            sealed: None,
            subject: None,
        })
    }

    // The answer to a line without its own, where the step has one.
    pub fn answer(&mut self, line: &str) -> anyhow::Result<Option<String>> {
        match read_step(self.heap, line)? {
            Step::Kind(kind) => {
                self.kind = kind;
                Ok(None)
            }
            Step::After { time, delay } => Ok(Some(self.after(time, delay)?)),
            Step::Entry { name, pins, table } => {
                self.entries.push(entry(&name, pins, table))?;
                Ok(None)
            }
            Step::Library => Ok(Some(self.library()?)),
            Step::Ask { word, pins } => Ok(Some(ask(self.heap, &self.family, &word, pins)?)),
            Step::Draft(step) => Ok(self.draft(step)?),
            Step::Seal => Ok(Some(self.seal()?)),
            Step::Open { places } => Ok(Some(self.open(places)?)),
            Step::Study(step) => Ok(Some(self.study(step)?)),
        }
    }

    fn after(&self, time: &str, delay: u32) -> anyhow::Result<String> {
        match self.kind {
            Kind::Ticks => after::<Ticks>(self.heap, time, delay),
            Kind::Stages => after::<Staged>(self.heap, time, delay),
        }
    }

    // Makes a library of the entries so far; the family with it wants a new draft.
    fn library(&mut self) -> Result<String, AllocError> {
        let heap = self.heap;
        let entries = mem::replace(&mut self.entries, Vec::new(heap));
        match library_of(entries) {
            Ok(library) => {
                self.family = with_library(heap, library)?;
                self.sketch = Sketch::new(heap)?;
                format!(in heap; "ok")
            }
            Err(fault) => format!(in heap; "refused {} {}", fault.number(), fault.entry),
        }
    }

    // A step on the draft.
    fn draft(&mut self, step: DraftStep) -> Result<Option<String>, AllocError> {
        match step {
            DraftStep::New => {
                self.sketch = Sketch::new(self.heap)?;
                Ok(None)
            }
            DraftStep::Input { name, delay } => Ok(Some(self.sketch.input(&name, delay)?)),
            DraftStep::Cell(cell) => Ok(Some(self.sketch.cell(&self.family, &cell)?)),
            DraftStep::Part(text) => {
                self.sheet.extend_from_slice(text.as_bytes())?;
                self.sheet.push(b'\n')?;
                Ok(None)
            }
            DraftStep::Draw => {
                let sheet = mem::replace(&mut self.sheet, Vec::new(self.heap));
                Ok(Some(self.sketch.draw(&self.family, &sheet)?))
            }
            DraftStep::Lines => Ok(Some(self.sketch.count()?)),
        }
    }

    // Seals the draft, which stays where that is refused.
    fn seal(&mut self) -> Result<String, AllocError> {
        let heap = self.heap;
        let sketch = mem::replace(&mut self.sketch, Sketch::new(heap)?);
        match sketch.seal() {
            Ok(network) => {
                self.sealed = Some(network);
                format!(in heap; "ok")
            }
            Err((sketch, fault)) => {
                self.sketch = sketch;
                refused(heap, fault.number())
            }
        }
    }

    // Opens a study, in the kind of time that stands; the network stays where that is refused.
    fn open(&mut self, places: usize) -> anyhow::Result<String> {
        let heap = self.heap;
        let network = self.sealed.take().context("no network is sealed")?;
        let opened = match self.kind {
            Kind::Ticks => {
                Opened::open(heap, network, ceilings(heap, places)?).map(Subject::Ticks)
            }
            Kind::Stages => {
                Opened::open(heap, network, ceilings(heap, places)?).map(Subject::Stages)
            }
        };
        match opened {
            Ok(subject) => {
                self.subject = Some(subject);
                Ok(format!(in heap; "ok")?)
            }
            Err((network, fault)) => {
                self.sealed = Some(network);
                Ok(refused(heap, fault.number())?)
            }
        }
    }

    // A step on the study.
    fn study(&mut self, step: StudyStep) -> anyhow::Result<String> {
        match &mut self.subject {
            None => bail!("no study is open"),
            Some(Subject::Ticks(opened)) => opened.answer(step),
            Some(Subject::Stages(opened)) => opened.answer(step),
        }
    }
}
