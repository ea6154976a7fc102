// The words of a script's line.
use anyhow::{Context, bail, ensure};
use std::alloc::Global;
use std::error::Error;
use std::str::FromStr;

// What is left of a line, read word by word.
#[derive(Drop)]
pub struct Words<'a> {
    heap: Global,
    rest: Option<&'a str>,
}

impl<'a> Words<'a> {
    pub fn of(heap: Global, line: &'a str) -> Words<'a> {
        let rest = Some(line);
        Words { heap, rest }
    }

    // The next word, up to a space or to the end.
    pub fn word(&mut self) -> anyhow::Result<&'a str> {
        let rest = self.rest.context("a word is missing")?;
        let (word, rest) = match rest.split_once(' ') {
            Some((word, rest)) => (word, Some(rest)),
            None => (rest, None),
        };
        self.rest = rest;
        ensure!(!word.is_empty(), "a word is empty");
        Ok(word)
    }

    pub fn number<N: FromStr>(&mut self) -> anyhow::Result<N>
    where
        N::Err: Error,
    {
        Ok(self.word()?.parse::<N>()?)
    }

    pub fn table(&mut self) -> anyhow::Result<u16> {
        Ok(u16::from_str_radix(self.word()?, 16)?)
    }

    // The numbers to the end.
    pub fn numbers(&mut self) -> anyhow::Result<Vec<usize>> {
        let mut numbers = Vec::new(self.heap);
        if let Some(rest) = self.rest.take() {
            for word in rest.split(' ') {
                numbers.push(word.parse::<usize>()?)?;
            }
        }
        Ok(numbers)
    }

    // The bytes that a name or a cell word stands for: each as it is written, or as `%` and two hexadecimal digits; a lone
    // `%` is none. A line's words are all read before one is decoded: a word that is missing or no number is told first.
    pub fn decoded(&self, word: &str) -> anyhow::Result<Vec<u8>> {
        bytes_of(self.heap, word)
    }

    // The same; a lone `-` is no name.
    pub fn decoded_name(&self, word: &str) -> anyhow::Result<Option<Vec<u8>>> {
        match word {
            "-" => Ok(None),
            word => Ok(Some(self.decoded(word)?)),
        }
    }

    // The bytes of a vector, a digit for each; a lone `-` is none.
    pub fn decoded_vector(&self, word: &str) -> anyhow::Result<Vec<u8>> {
        let mut bytes = Vec::new(self.heap);
        if word == "-" {
            return Ok(bytes);
        }
        for b in word.bytes() {
            match b {
                b'0'..=b'9' => bytes.push(b - b'0')?,
                _ => bail!("a vector has another byte than a digit"),
            }
        }
        Ok(bytes)
    }

    // Whether all words are read.
    pub fn is_done(&self) -> bool {
        self.rest.is_none()
    }
}

fn bytes_of(heap: Global, word: &str) -> anyhow::Result<Vec<u8>> {
    let mut bytes = Vec::new(heap);
    if word == "%" {
        return Ok(bytes);
    }
    let mut pieces = word.split('%');
    if let Some(first) = pieces.next() {
        bytes.extend_from_slice(first.as_bytes())?;
    }
    for piece in pieces {
        let (code, rest) = piece
            .split_at_checked(2)
            .context("two digits are missing after a %")?;
        bytes.push(u8::from_str_radix(code, 16)?)?;
        bytes.extend_from_slice(rest.as_bytes())?;
    }
    Ok(bytes)
}
