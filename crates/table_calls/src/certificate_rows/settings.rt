//! What the lines of a table set for the rows below them.

use crate::certificate_rows::texts::bytes_of;
use std::alloc::{AllocError, Global};
use table_rows::named;

/// What is set for the rows that follow.
#[derive(Drop)]
pub struct Setting {
    /// The text of the protocol.
    pub protocol: Vec<u8>,
    /// Whether texts are those of certificates, and not of reports.
    pub is_alone: bool,
    /// What each text begins with.
    pub front: Vec<u8>,
    /// The text that rows speak of which give none of their own.
    pub file: Vec<u8>,
}

/// What a line sets.
#[derive(Clone, Copy)]
enum Part {
    Kind,
    Protocol,
    Front,
    More,
    File,
}

/// The first words of the lines that set something.
const PARTS: [(&str, Part); 5] = [
    ("read", Part::Kind),
    ("protocol", Part::Protocol),
    ("front", Part::Front),
    ("more", Part::More),
    ("file", Part::File),
];

impl Setting {
    /// Reports, and nothing else is set.
    pub fn new(alloc: Global) -> Setting {
        Setting {
            protocol: Vec::new(alloc),
            is_alone: false,
            front: Vec::new(alloc),
            file: Vec::new(alloc),
        }
    }

    /// Sets what a line says, and tells whether it is one that sets something.
    pub fn set(&mut self, alloc: Global, word: &str, text: &str) -> Result<bool, AllocError> {
        match named(&PARTS, word) {
            Some(part) => {
                self.set_part(alloc, part, text)?;
                Ok(true)
            }
            None => Ok(false),
        }
    }

    /// Sets a part to what the text says.
    fn set_part(&mut self, alloc: Global, part: Part, text: &str) -> Result<(), AllocError> {
        match part {
            Part::Kind => self.is_alone = text == "certificates",
            Part::Protocol => self.protocol = Vec::from_slice(alloc, text.as_bytes())?,
            Part::Front => self.front = bytes_of(alloc, &[], text)?,
            Part::More => self.file = bytes_of(alloc, &self.file, text)?,
            Part::File => self.file = bytes_of(alloc, &self.front, text)?,
        }
        Ok(())
    }
}
