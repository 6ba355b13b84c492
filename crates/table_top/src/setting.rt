//! What the rows of a table are about.

use crate::texts::{bytes_of, words_of};
use std::alloc::{AllocError, Global};
use table_rows::named;

/// The words of a call, its files, and what fails. Whatever is set stays so in the rows below.
#[derive(Drop)]
pub struct Setting {
    /// The words of the command line.
    pub words: Vec<String>,
    /// The bytes of `first.pi`.
    pub file: Vec<u8>,
    /// The bytes of `first.report`.
    pub report: Vec<u8>,
    /// The bytes of `first.run`.
    pub run: Vec<u8>,
    /// The number of the load that fails, from 1; 0 where none does.
    pub failing_load: u64,
    /// The number of the write that fails, from 1; 0 where none does.
    pub failing_write: u64,
    /// How many bytes the sink takes in a call.
    pub width: u64,
}

/// What a line sets.
#[derive(Clone, Copy)]
enum Part {
    Words,
    File,
    Report,
    Run,
    FailingLoad,
    FailingWrite,
    Width,
}

/// What lines set, by their first words.
const PARTS: [(&str, Part); 7] = [
    ("words", Part::Words),
    ("file", Part::File),
    ("report", Part::Report),
    ("run", Part::Run),
    ("failing-load", Part::FailingLoad),
    ("failing-write", Part::FailingWrite),
    ("width", Part::Width),
];

/// The number that a text spells, 0 where it spells none.
fn number_of(text: &str) -> u64 {
    text.parse::<u64>().unwrap_or(0)
}

impl Setting {
    /// No words, empty files, nothing that fails, and a sink that takes 1,000 bytes in a call.
    pub fn new(alloc: Global) -> Setting {
        Setting {
            words: Vec::new(alloc),
            file: Vec::new(alloc),
            report: Vec::new(alloc),
            run: Vec::new(alloc),
            failing_load: 0,
            failing_write: 0,
            width: 1000,
        }
    }

    /// Sets what a line says; false where it sets nothing.
    pub fn set(&mut self, alloc: Global, word: &str, text: &str) -> Result<bool, AllocError> {
        let Some(part) = named(&PARTS, word) else {
            return Ok(false);
        };
        self.set_part(alloc, part, text)?;
        Ok(true)
    }

    /// Sets a part to what the text says.
    fn set_part(&mut self, alloc: Global, part: Part, text: &str) -> Result<(), AllocError> {
        match part {
            Part::Words => self.words = words_of(alloc, text)?,
            Part::File => self.file = bytes_of(alloc, text)?,
            Part::Report => self.report = bytes_of(alloc, text)?,
            Part::Run => self.run = bytes_of(alloc, text)?,
            Part::FailingLoad => self.failing_load = number_of(text),
            Part::FailingWrite => self.failing_write = number_of(text),
            Part::Width => self.width = number_of(text),
        }
        Ok(())
    }
}
