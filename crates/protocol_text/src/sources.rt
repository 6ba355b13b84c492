//! A file as its tokens: which words stand where.

use crate::text::Text;
use hv_io::place;
use pi_lexer::Tokens;
use pi_parser::Sketch;
use std::alloc::{AllocError, Global};

/// A file that spells a protocol, its tokens, and what the parser made of them.
#[derive(Clone, Copy)]
pub struct Source<'a> {
    pub alloc: Global,
    pub bytes: &'a [u8],
    pub tokens: &'a Tokens,
    pub sketch: &'a Sketch,
}

/// Tokens by their numbers. Where there is no memory for one, it lacks that.
#[derive(Drop)]
pub(crate) struct TokenList {
    numbers: Vec<usize>,
    lacks_memory: bool,
}

impl TokenList {
    /// No tokens.
    pub(crate) fn new(alloc: Global) -> TokenList {
        TokenList {
            numbers: Vec::new(alloc),
            lacks_memory: false,
        }
    }

    /// Adds a token.
    pub(crate) fn add(&mut self, number: usize) {
        if self.numbers.push(number).is_err() {
            self.lacks_memory = true;
        }
    }

    /// The numbers, where none is lacking.
    pub(crate) fn all(self) -> Result<Vec<usize>, AllocError> {
        if self.lacks_memory {
            Err(AllocError)
        } else {
            Ok(self.numbers)
        }
    }
}

/// What a hash of no bytes is, and by what it is multiplied (Fowler, Noll and Vo 1991).
const EMPTY_HASH: u64 = 0xcbf2_9ce4_8422_2325;

const FACTOR: u64 = 0x0000_0100_0000_01b3;

/// How many slots a set of words has.
const SLOTS: usize = 1 << 20;

/// The slot of a word: its hash, shortened.
fn slot_of(word: &[u8]) -> usize {
    let mut hash = EMPTY_HASH;
    for byte in word {
        hash = (hash ^ u64::from(*byte)).wrapping_mul(FACTOR);
    }
    hash as usize % SLOTS
}

/// Words, by their slots. Words of one slot are taken for one: then a warning may be left out.
#[derive(Drop)]
pub(crate) struct WordSet {
    slots: Vec<bool>,
}

impl WordSet {
    /// No words.
    pub(crate) fn new(alloc: Global) -> Result<WordSet, AllocError> {
        let slots = vec![in alloc; false; SLOTS]?;
        Ok(WordSet { slots })
    }

    /// Whether the word is there.
    pub(crate) fn has(&self, word: &[u8]) -> bool {
        match self.slots.get(slot_of(word)) {
            None => false,
            Some(is_there) => *is_there,
        }
    }

    /// One more word.
    fn add(&mut self, word: &[u8]) {
        if let Some(is_there) = self.slots.get_mut(slot_of(word)) {
            *is_there = true;
        }
    }
}

impl Source<'_> {
    /// The text of the token of that number, from 0; none where there is no such.
    pub(crate) fn text(&self, number: usize) -> &[u8] {
        let tokens = self.tokens;
        match tokens.items.get(number) {
            None => b"",
            Some(token) => self.bytes.get(token.from..token.to).unwrap_or(b""),
        }
    }

    /// Adds the texts of the tokens from that number on, up to the point that ends a declaration.
    pub(crate) fn add_words(&self, first: usize, words: &mut WordSet) {
        let tokens = self.tokens;
        for number in first..tokens.items.len() {
            let word = self.text(number);
            if word == b".".as_slice() {
                return;
            }
            words.add(word);
        }
    }

    /// The line of the file in which a token stands, from 1.
    pub(crate) fn line(&self, number: usize) -> u64 {
        let tokens = self.tokens;
        let at = match tokens.items.get(number) {
            None => self.bytes.len(),
            Some(token) => token.from.min(self.bytes.len()),
        };
        let (line, _) = place(self.bytes, at);
        line
    }

    /// Puts the line of the file in which a token stands, and a colon.
    pub(crate) fn put_line(&self, text: &mut Text, number: usize) {
        text.put(b"line ");
        text.put_number(self.line(number));
        text.put(b": ");
    }
}
