//! Declared names and the words that spell them.

ghost use Rattle.std.specs.Prelude.{◌≡◌, IfOk};

use std::alloc::{AllocError, Global};
use std::marker::Model;

/// The bytes of an identifier.
#[derive(Debug)]
pub struct Word {
    pub items: Vec<u8>,
}

impl Drop for Word {
    fn drop(self) {
        let Word { items } = self;
        drop(items);
    }
}

impl Model for Word {
    ghost use Rattle.std.specs.Prelude.{ℕ, List};

    ghost Value = { List ℕ };

    ghost view = { λ a. a.items.items };
}

/// A declared name: of a free name the arity is 0, and it is no data constructor.
#[derive(Debug)]
pub struct Declared {
    pub word: Word,
    pub arity: u32,
    pub public: bool,
    pub is_data: bool,
}

impl Drop for Declared {
    fn drop(self) {
        let Declared {
            word,
            arity: _,
            public: _,
            is_data: _,
        } = self;
        drop(word);
    }
}

/// Declared names in order; they are numbered from 1.
#[derive(Debug)]
pub struct Declarations {
    pub items: Vec<Declared>,
}

impl Drop for Declarations {
    fn drop(self) {
        let Declarations { items } = self;
        drop(items);
    }
}

impl Model for Declarations {
    ghost use Rattle.std.specs.Prelude.{List, map};
    ghost use Rattle.spec_calculus.specs.Syntax as calculus;

    ghost Value = { List calculus.Declared };

    ghost use Rattle.pi_tree.specs.Names.{declared_of};

    ghost view = { λ a. map declared_of a.items.items };
}

impl Word {
    /// A copy, byte by byte.
    pub fn copy(&self, alloc: Global) -> Result<Word, AllocError>
        ensures { IfOk result (λ copied. copied ≡ self.now) }
    {
        let items = Vec::from_slice(alloc, &self.items)?;
        Ok(Word { items })
    }
}

impl Declared {
    /// A copy, its word copied.
    pub fn copy(&self, alloc: Global) -> Result<Declared, AllocError>
        ensures { IfOk result (λ copied. copied ≡ self.now) }
    {
        Ok(Declared {
            word: self.word.copy(alloc)?,
            arity: self.arity,
            public: self.public,
            is_data: self.is_data,
        })
    }
}

impl Declarations {
    /// A copy, item by item.
    pub fn copy(&self, alloc: Global) -> Result<Declarations, AllocError>
        ensures { IfOk result (λ copied. copied ≡ self.now) }
    {
        let mut items = Vec::new(alloc);
        for declared in &self.items {
            items.push(declared.copy(alloc)?)?;
        }
        Ok(Declarations { items })
    }
}
