//! The names that are in scope at a place of a process: which of them hide others, and which are read.

use crate::sources::Source;
use pi_parser::DeclarationSketch;
use std::alloc::{AllocError, Global};

/// What binds a name in a process.
#[derive(Clone, Copy)]
pub(crate) enum Binder {
    /// A restriction.
    New,
    /// An input that takes any message.
    Input,
    /// A `let` whose pattern is a variable alone.
    Let,
    /// A part of a pattern.
    Part,
}

/// A name that is in scope.
#[derive(Clone, Copy)]
pub(crate) struct Bound {
    /// Its token.
    pub(crate) token: usize,
    /// What binds it; none of a declared name.
    pub(crate) by: Option<Binder>,
    /// The token that uses the macro in which it is bound, by its number from 1; 0 in the main process.
    owner: usize,
}

/// A name that is bound anew.
#[derive(Clone, Copy)]
pub(crate) struct Hiding {
    /// What binds it anew.
    pub(crate) binder: Binder,
    /// The name that is hidden by it.
    pub(crate) hidden: Bound,
    /// Whether both are bound in one macro, or in the main process.
    is_own: bool,
}

impl Hiding {
    /// Whether it looks like a mistake, if the name that is hidden is read anywhere, or isn't.
    pub(crate) fn is_odd(self, is_read: bool) -> bool {
        let Some(by) = self.hidden.by else {
            return true;
        };
        match (self.binder, by) {
            (Binder::Part, Binder::New) => true,
            (Binder::Part, _) | (Binder::Input, Binder::New) | (Binder::Let, Binder::New) => {
                self.is_own
            }
            _ => self.is_own && !is_read,
        }
    }
}

/// The names that are in scope, the innermost last.
#[derive(Drop)]
pub(crate) struct Scope {
    names: Vec<Bound>,
    /// The token that uses the macro that is gone through, by its number from 1; 0 in the main process.
    owner: usize,
    /// For each token of the file the hiding of the name that it binds, if it hides one.
    hidings: Vec<Option<Hiding>>,
    /// For each token of the file how often the name that it binds is read.
    reads: Vec<u32>,
    /// Whether there was no memory for one of the names.
    lacks_memory: bool,
}

/// Whether the token is the number 0.
fn is_zero(file: Source<'_>, token: usize) -> bool {
    file.text(token) == b"0".as_slice()
}

impl Scope {
    /// No names, over a file of so many tokens.
    fn new(alloc: Global, tokens: usize) -> Result<Scope, AllocError> {
        let hidings = vec![in alloc; None; tokens]?;
        let reads = vec![in alloc; 0; tokens]?;
        Ok(Scope {
            names: Vec::new(alloc),
            owner: 0,
            hidings,
            reads,
            lacks_memory: false,
        })
    }

    /// The names of a file that are declared, and that terms may have alone: free names, and constructors without arguments.
    pub(crate) fn of_declared(file: Source<'_>) -> Result<Scope, AllocError> {
        let tokens = file.tokens;
        let sketch = file.sketch;
        let mut scope = Scope::new(file.alloc, tokens.items.len())?;
        for declaration in &sketch.declarations {
            scope.declare(file, declaration);
        }
        Ok(scope)
    }

    /// One more name.
    fn push(&mut self, token: usize, by: Option<Binder>) {
        let bound = Bound {
            token,
            by,
            owner: self.owner,
        };
        if self.names.push(bound).is_err() {
            self.lacks_memory = true;
        }
    }

    /// Adds the names of a declaration that terms may have alone.
    fn declare(&mut self, file: Source<'_>, declaration: &DeclarationSketch) {
        match declaration {
            DeclarationSketch::Free { name, others, .. } => {
                self.push(*name, None);
                for other in others {
                    self.push(*other, None);
                }
            }
            DeclarationSketch::Fun { name, arity, .. }
            | DeclarationSketch::Data { name, arity, .. } => {
                if is_zero(file, *arity) {
                    self.push(*name, None);
                }
            }
            _ => {}
        }
    }

    /// The innermost name of the token's word.
    fn find(&self, file: Source<'_>, token: usize) -> Option<Bound> {
        let word = file.text(token);
        for name in self.names.iter().rev() {
            if file.text(name.token) == word {
                return Some(*name);
            }
        }
        None
    }

    /// The token reads the innermost name of its word.
    pub(crate) fn read(&mut self, file: Source<'_>, token: usize) {
        if let Some(bound) = self.find(file, token) {
            if let Some(count) = self.reads.get_mut(bound.token) {
                *count = count.saturating_add(1);
            }
        }
    }

    /// How often the innermost name of the token's word is read so far.
    pub(crate) fn count_reads(&self, file: Source<'_>, token: usize) -> u32 {
        match self.find(file, token) {
            None => 0,
            Some(bound) => self.reads_of(bound),
        }
    }

    /// How often a name is read.
    fn reads_of(&self, bound: Bound) -> u32 {
        match self.reads.get(bound.token) {
            None => 0,
            Some(count) => *count,
        }
    }

    /// Binds the word of the token, which hides no name.
    pub(crate) fn add(&mut self, token: usize, binder: Binder) {
        self.push(token, Some(binder));
    }

    /// Binds the word of the token, and notes which name it hides.
    pub(crate) fn bind(&mut self, file: Source<'_>, token: usize, binder: Binder) {
        if let Some(hidden) = self.find(file, token) {
            let is_own = hidden.owner == self.owner;
            if let Some(noted) = self.hidings.get_mut(token) {
                *noted = Some(Hiding {
                    binder,
                    hidden,
                    is_own,
                });
            }
        }
        self.add(token, binder);
    }

    /// How many names are in scope.
    pub(crate) fn count(&self) -> usize {
        self.names.len()
    }

    /// Lets go of all names but the first so many.
    pub(crate) fn close(&mut self, open: usize) {
        self.names.truncate(open);
    }

    /// Goes into the macro that the token uses, or back into that of the number that `enter` gave: the number of the one that is left.
    pub(crate) fn enter(&mut self, owner: usize) -> usize {
        let left = self.owner;
        self.owner = owner;
        left
    }

    /// Whether a name is read anywhere.
    pub(crate) fn is_read(&self, bound: Bound) -> bool {
        self.reads_of(bound) != 0
    }

    /// For each token of the file the hiding of the name that it binds, if it hides one.
    pub(crate) fn hidings(&self) -> Result<&[Option<Hiding>], AllocError> {
        if self.lacks_memory {
            Err(AllocError)
        } else {
            Ok(&self.hidings)
        }
    }
}
