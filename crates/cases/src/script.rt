// The steps of a script, read from its lines.
use crate::words::Words;
use anyhow::{bail, ensure};
use std::alloc::Global;

// A kind of time.
#[derive(Clone, Copy)]
pub enum Kind {
    Ticks,
    Stages,
}

// The sizes of a call's two buffers: of the values and the times of a settle, or of the vector and the work.
#[derive(Clone, Copy)]
pub struct Sizes {
    pub first: usize,
    pub second: usize,
}

// A call on the open study, with the sizes where they are written. A value is a byte, as the calls take it.
#[derive(Drop)]
pub enum StudyStep<'a> {
    Settle {
        vector: Vec<u8>,
        sizes: Option<Sizes>,
    },
    Seek {
        line: usize,
        value: u8,
        bound: &'a str,
        sizes: Option<Sizes>,
    },
    Worst {
        line: usize,
        sizes: Option<Sizes>,
    },
    Shorten {
        line: usize,
        delay: u32,
    },
    Lengthen {
        line: usize,
        delay: u32,
    },
    Tie {
        line: usize,
        value: u8,
    },
    Untie {
        line: usize,
    },
}

// A cell to add, with a name or without.
#[derive(Drop)]
pub struct CellStep {
    pub name: Option<Vec<u8>>,
    pub word: Vec<u8>,
    pub delay: u32,
    pub pins: Vec<usize>,
}

// A call on the draft.
#[derive(Drop)]
pub enum DraftStep<'a> {
    New,
    Input { name: Vec<u8>, delay: u32 },
    Cell(CellStep),
    // One more line of the next sheet.
    Part(&'a str),
    Draw,
    Lines,
}

// A line of a script, without its answer.
#[derive(Drop)]
pub enum Step<'a> {
    Kind(Kind),
    After {
        time: &'a str,
        delay: u32,
    },
    Entry {
        name: Vec<u8>,
        pins: usize,
        table: u16,
    },
    Library,
    Ask {
        word: Vec<u8>,
        pins: usize,
    },
    Draft(DraftStep<'a>),
    Seal,
    // The places of the ceilings' buffer.
    Open {
        places: usize,
    },
    Study(StudyStep<'a>),
}

fn read_kind(words: &mut Words) -> anyhow::Result<Kind> {
    match words.word()? {
        "ticks" => Ok(Kind::Ticks),
        "stages" => Ok(Kind::Stages),
        _ => bail!("there is no such kind of time"),
    }
}

fn read_entry<'a>(words: &mut Words<'a>) -> anyhow::Result<Step<'a>> {
    let name = words.word()?;
    let pins = words.number()?;
    let table = words.table()?;
    let name = words.decoded(name)?;
    Ok(Step::Entry { name, pins, table })
}

fn read_ask<'a>(words: &mut Words<'a>) -> anyhow::Result<Step<'a>> {
    let word = words.word()?;
    let pins = words.number()?;
    let word = words.decoded(word)?;
    Ok(Step::Ask { word, pins })
}

fn read_input<'a>(words: &mut Words<'a>) -> anyhow::Result<DraftStep<'a>> {
    let name = words.word()?;
    let delay = words.number()?;
    let name = words.decoded(name)?;
    Ok(DraftStep::Input { name, delay })
}

fn read_cell<'a>(words: &mut Words<'a>) -> anyhow::Result<DraftStep<'a>> {
    let name = words.word()?;
    let word = words.word()?;
    let delay = words.number()?;
    let pins = words.numbers()?;
    Ok(DraftStep::Cell(CellStep {
        word: words.decoded(word)?,
        name: words.decoded_name(name)?,
        delay,
        pins,
    }))
}

// The two sizes, where they are written.
fn read_sizes(words: &mut Words) -> anyhow::Result<Option<Sizes>> {
    if words.is_done() {
        return Ok(None);
    }
    Ok(Some(Sizes {
        first: words.number()?,
        second: words.number()?,
    }))
}

fn read_settle<'a>(words: &mut Words<'a>) -> anyhow::Result<StudyStep<'a>> {
    let vector = words.word()?;
    let sizes = read_sizes(words)?;
    let vector = words.decoded_vector(vector)?;
    Ok(StudyStep::Settle { vector, sizes })
}

fn read_seek<'a>(words: &mut Words<'a>) -> anyhow::Result<StudyStep<'a>> {
    Ok(StudyStep::Seek {
        line: words.number()?,
        value: words.number()?,
        bound: words.word()?,
        sizes: read_sizes(words)?,
    })
}

// The calls of which each begins with a line.
fn read_of_line<'a>(call: &str, words: &mut Words<'a>) -> anyhow::Result<StudyStep<'a>> {
    let line = words.number()?;
    Ok(match call {
        "worst" => StudyStep::Worst {
            line,
            sizes: read_sizes(words)?,
        },
        "shorten" => StudyStep::Shorten {
            line,
            delay: words.number()?,
        },
        "lengthen" => StudyStep::Lengthen {
            line,
            delay: words.number()?,
        },
        "tie" => StudyStep::Tie {
            line,
            value: words.number()?,
        },
        "untie" => StudyStep::Untie { line },
        _ => bail!("there is no such call"),
    })
}

fn read_study_step<'a>(call: &str, words: &mut Words<'a>) -> anyhow::Result<StudyStep<'a>> {
    match call {
        "settle" => read_settle(words),
        "seek" => read_seek(words),
        _ => read_of_line(call, words),
    }
}

fn read_call<'a>(words: &mut Words<'a>) -> anyhow::Result<Step<'a>> {
    Ok(match words.word()? {
        "kind" => Step::Kind(read_kind(words)?),
        "after" => Step::After {
            time: words.word()?,
            delay: words.number()?,
        },
        "entry" => read_entry(words)?,
        "library" => Step::Library,
        "ask" => read_ask(words)?,
        "draft" => Step::Draft(DraftStep::New),
        "input" => Step::Draft(read_input(words)?),
        "cell" => Step::Draft(read_cell(words)?),
        "draw" => Step::Draft(DraftStep::Draw),
        "lines" => Step::Draft(DraftStep::Lines),
        "seal" => Step::Seal,
        "open" => Step::Open {
            places: words.number()?,
        },
        call => Step::Study(read_study_step(call, words)?),
    })
}

// The step that a line without its answer says.
pub fn read_step<'a>(heap: Global, line: &'a str) -> anyhow::Result<Step<'a>> {
    if let Some(text) = line.strip_prefix("| ") {
        return Ok(Step::Draft(DraftStep::Part(text)));
    }
    let mut words = Words::of(heap, line);
    let step = read_call(&mut words)?;
    ensure!(words.is_done(), "there are words too many");
    Ok(step)
}
