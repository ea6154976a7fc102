// Scripts played line by line, each answer compared with what is stored.
use crate::bench::Bench;
use crate::comparing::shown;
use crate::files::{names_in, text_in};
use crate::tally::Tally;
use std::alloc::{AllocError, Global};

// A line of a script: the call, and the answer that is expected, where one is.
#[derive(Clone, Copy)]
struct Line<'a> {
    call: &'a str,
    expected: Option<&'a str>,
}

impl<'a> Line<'a> {
    // A part of a sheet has no answer, whatever it says.
    fn of(text: &'a str) -> Line<'a> {
        match text.split_once(" -> ") {
            Some((call, answer)) if !text.starts_with('|') => Line {
                call,
                expected: Some(answer),
            },
            _ => Line {
                call: text,
                expected: None,
            },
        }
    }
}

// A script that is played: what it works on, and where its answers are counted.
#[derive(Drop)]
struct Player<'a> {
    heap: Global,
    file: &'a str,
    bench: Bench,
    tally: &'a mut Tally,
}

impl<'a> Player<'a> {
    // Plays the script, which agrees if it has answers, and all agree.
    fn play(&mut self, script: &str) -> anyhow::Result<()> {
        let before = self.tally.answers.all;
        let mut agrees = true;
        for (i, text) in script.lines().enumerate() {
            if !text.starts_with('#') {
                agrees &= self.play_line(i.saturating_add(1), text)?;
            }
        }
        let answered = self.tally.answers.all > before;
        self.tally.cases.add(agrees && answered);
        Ok(())
    }

    // Plays a line, whose number is counted from 1; whether it agrees.
    fn play_line(&mut self, number: usize, text: &str) -> anyhow::Result<bool> {
        let line = Line::of(text);
        let got = self.answer(line.call)?;
        let got = got.as_deref();
        let agrees = line.expected == got;
        if line.expected.is_some() || got.is_some() {
            self.tally.answers.add(agrees);
        }
        if !agrees {
            let difference = self.difference(number, line, got)?;
            self.tally.differences.push(difference)?;
        }
        Ok(agrees)
    }

    // The answer to a call, if it has one; where the call is not understood or fails, why.
    fn answer(&mut self, call: &str) -> Result<Option<String>, AllocError> {
        match self.bench.answer(call) {
            Ok(got) => Ok(got),
            Err(error) => Ok(Some(error.to_string(self.heap)?)),
        }
    }

    // What differs in the answer to a line.
    fn difference(
        &self,
        number: usize,
        line: Line,
        got: Option<&str>,
    ) -> Result<String, AllocError> {
        let file = self.file;
        let call = line.call;
        let expected = shown_answer(self.heap, line.expected)?;
        let got = shown_answer(self.heap, got)?;
        format!(in self.heap; "{file}:{number}: {call}: expected {expected}, got {got}")
    }
}

// An answer, made readable.
fn shown_answer(heap: Global, answer: Option<&str>) -> Result<String, AllocError> {
    match answer {
        Some(text) => shown(heap, text.as_bytes()),
        None => format!(in heap; "no answer"),
    }
}

// The histories of a folder.
pub fn check_histories(rt: &HostRuntime, folder: &str, kind: &str) -> anyhow::Result<Tally> {
    let heap = rt.alloc();
    let mut tally = Tally::new(heap);
    let folder = format!(in heap; "{folder}/{kind}")?;
    for name in names_in(rt, &folder, ".study")? {
        let file = format!(in heap; "{folder}/{name}.study")?;
        let script = text_in(rt, &file)?;
        let mut player = Player {
            heap,
            file: &file,
            bench: Bench::new(heap)?,
            tally: &mut tally,
        };
        player.play(&script)?;
    }
    Ok(tally)
}
