//! The rows of a file, line by line.
use crate::answer::Answer;
use anyhow::{Context, bail};
use spv_samples::PROFILE;
use std::alloc::Global;

/// What the lines so far say of the row that is next to run.
#[derive(Drop)]
pub struct Rows<'a> {
    alloc: Global,
    grammar: Vec<u8>,
    /// The text of the grammar file that the next line `new` takes the place of.
    old: &'a str,
    name: &'a str,
    words: Vec<&'a str>,
    input: Vec<u8>,
}

impl<'a> Rows<'a> {
    /// No lines so far.
    pub fn new(alloc: Global) -> Self {
        Rows {
            alloc,
            grammar: Vec::new(alloc),
            old: "",
            name: "",
            words: Vec::new(alloc),
            input: Vec::new(alloc),
        }
    }

    /// Takes a line; at `run` it prints the row's answer.
    ///
    /// # Errors
    ///
    /// The line is none of the file's form, memory is short, or the answer cannot be printed.
    pub fn take_line(&mut self, rt: &HostRuntime, line: &'a str) -> anyhow::Result<()> {
        let (key, text) = line.split_once(' ').unwrap_or((line, ""));
        match key {
            "profile" => self.grammar = Vec::from_slice(self.alloc, PROFILE.as_bytes())?,
            "grammar" => self.grammar = Vec::from_slice(self.alloc, text.as_bytes())?,
            "grammar-hex" => self.grammar = hex::decode(self.alloc, text)?,
            "old" => self.old = text,
            "new" => self.change(text)?,
            "row" => self.begin(text),
            "word" => self.words.push(text)?,
            "input" => self.add_input(text, 1)?,
            "times" => self.add_times(text)?,
            "run" => self.answer()?.print(rt, self.name)?,
            _ => bail!("no line of a row: {line}"),
        }
        Ok(())
    }

    /// Has the grammar file's words stand with one space between each two, and puts a text in place of the old one.
    ///
    /// # Errors
    ///
    /// The grammar file is no text, or memory is short.
    fn change(&mut self, new: &str) -> anyhow::Result<()> {
        let mut words = String::new(self.alloc);
        for word in str::from_utf8(&self.grammar)?.split_whitespace() {
            if !words.is_empty() {
                words.push(' ')?;
            }
            words.push_str(word)?;
        }
        let changed = words.replace(self.alloc, self.old, new)?;
        self.grammar = Vec::from_slice(self.alloc, changed.as_bytes())?;
        Ok(())
    }

    /// Begins a row of a name, with no words and no input.
    fn begin(&mut self, name: &'a str) {
        self.name = name;
        self.words.clear();
        self.input.clear();
    }

    /// Adds bytes to the input, so many times.
    fn add_input(&mut self, text: &str, times: u64) -> anyhow::Result<()> {
        let bytes = hex::decode(self.alloc, text)?;
        for _ in 0..times {
            self.input.extend_from_slice(&bytes)?;
        }
        Ok(())
    }

    /// Adds to the input what a line `times` says.
    fn add_times(&mut self, text: &str) -> anyhow::Result<()> {
        let (times, bytes) = text.split_once(' ').context("no number and bytes")?;
        self.add_input(bytes, times.parse()?)
    }

    /// The answer to the row.
    fn answer(&self) -> anyhow::Result<Answer> {
        Answer::of(self.alloc, &self.words, &self.grammar, &self.input)
    }
}
