//! A document in JSON, written member by member on lines of their own, as `serde_json` writes one for people to read.

use crate::part::{Part, tell};
use std::alloc::{AllocError, Global};
use std::fmt::Write;

/// A document as far as it is written.
#[derive(Drop)]
pub(crate) struct Document {
    alloc: Global,
    text: String,
    /// How many brackets are open.
    depth: usize,
    /// Whether nothing stands after the last open bracket.
    is_first: bool,
}

impl Document {
    /// A document within whose last member something is written already, which stands elsewhere.
    pub(crate) fn within(alloc: Global) -> Document {
        Document {
            alloc,
            text: String::new(alloc),
            depth: 2,
            is_first: false,
        }
    }

    /// The text, with the end of its line.
    pub(crate) fn finish(self) -> Result<String, AllocError> {
        let mut text = self.text;
        text.push('\n')?;
        Ok(text)
    }

    /// Begins a line.
    fn begin_line(&mut self) -> Result<(), AllocError> {
        self.text.push('\n')?;
        for _ in 0..self.depth {
            self.text.push_str("  ")?;
        }
        Ok(())
    }

    /// Begins what stands at a name: an empty one in an array.
    fn begin(&mut self, name: &str) -> Result<(), AllocError> {
        if self.depth > 0 {
            self.text.push_str(if self.is_first { "" } else { "," })?;
            self.begin_line()?;
        }
        self.is_first = false;
        if name.is_empty() {
            return Ok(());
        }
        tell(&mut self.text, "\"@\": ", &[Part::Words(name)])
    }

    /// Opens a bracket at a name.
    pub(crate) fn open(&mut self, name: &str, bracket: char) -> Result<(), AllocError> {
        self.begin(name)?;
        self.depth = self.depth.saturating_add(1);
        self.is_first = true;
        self.text.push(bracket)
    }

    /// Closes a bracket.
    pub(crate) fn close(&mut self, bracket: char) -> Result<(), AllocError> {
        self.depth = self.depth.saturating_sub(1);
        if !self.is_first {
            self.begin_line()?;
        }
        self.is_first = false;
        self.text.push(bracket)
    }

    /// Writes a word at a name: `true`, `false` or `null`, or a text that is quoted.
    pub(crate) fn word(&mut self, name: &str, word: &str) -> Result<(), AllocError> {
        self.begin(name)?;
        self.text.push_str(word)
    }

    /// Writes a text at a name.
    pub(crate) fn text(&mut self, name: &str, text: &str) -> Result<(), AllocError> {
        match serde_json::to_string(self.alloc, &text) {
            Ok(quoted) => self.word(name, &quoted),
            // nothing else can be wrong with a text
            Err(_) => Err(AllocError),
        }
    }

    /// Writes numbers at their names.
    pub(crate) fn numbers(&mut self, numbers: &[(&str, u64)]) -> Result<(), AllocError> {
        for (name, number) in numbers {
            self.begin(name)?;
            write!(self.text, "{number}")?;
        }
        Ok(())
    }
}
