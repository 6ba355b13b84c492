//! Classes of facts, and numbers that are listed by them.

ghost use Rattle.std.specs.Prelude.{◌≡◌, ◌<◌, ℕ, Some, [], length, map, get_or, IfOk, OnOk};
ghost use Rattle.fact_fingerprint.specs.Seen.{fingerprint_seen};
ghost use Rattle.fact_classes.specs.Classes.{is_told_at, are_told, class_of};
ghost use Rattle.fact_classes.specs.Classes.{listed, IsEmptyClasses, AreSameClasses, IsClassListed};

use fact_fingerprint::Fingerprint;
use std::alloc::{AllocError, Global};

/// How many classes there are: a prime, since the numbers of symbols of one kind go in steps of eight.
const CLASSES: usize = 251;

/// Whether one number alone may stand at a position.
fn is_told_at(print: &Fingerprint, place: usize) -> bool
    requires { place < 32 }
    ensures { result ≡ is_told_at (fingerprint_seen print.now) place }
{
    print.least[place] == print.most[place]
}

/// Whether it is told what stands at the roots of the first two terms, and of their second arguments.
fn are_told(print: &Fingerprint) -> bool
    ensures { result ≡ are_told (fingerprint_seen print.now) }
{
    is_told_at(print, 0) && is_told_at(print, 2) && is_told_at(print, 16) && is_told_at(print, 18)
}

/// The class of facts with the fingerprint, by what stands at the roots of the first two terms and of their second arguments;
/// none, where that isn't told. Takes no memory.
pub fn class_of(print: &Fingerprint) -> Option<usize>
    ensures { result ≡ class_of (fingerprint_seen print.now) }
{
    if !are_told(print) {
        return None;
    }
    let terms = usize::from(print.least[0]) + 5 * usize::from(print.least[16]);
    let arguments = 3 * usize::from(print.least[2]) + 7 * usize::from(print.least[18]);
    Some((terms + arguments) % CLASSES)
}

/// Numbers of facts: for each class those of the facts in it, and those of the facts in none, each in the order in which they
/// were put there.
pub struct Classes {
    pub lists: Vec<Vec<usize>>,
    pub rest: Vec<usize>,
}

impl Drop for Classes {
    fn drop(self) {
        let Classes { lists, rest } = self;
        drop(lists);
        drop(rest);
    }
}

/// Copies of lists.
fn copies(alloc: Global, lists: &[Vec<usize>]) -> Result<Vec<Vec<usize>>, AllocError>
    ensures { IfOk result (λ copied.
        map (λ l. l.items) copied.items ≡ map (λ l. l.items) lists.now) }
{
    let mut copied = Vec::with_capacity(alloc, lists.len())?;
    'each: for list in lists {
        copied.push(list.to_vec(alloc)?)?;
    }
    Ok(copied)
}

impl Classes {
    /// No numbers.
    pub fn none(alloc: Global) -> Self
        ensures { IsEmptyClasses result }
    {
        Classes {
            lists: Vec::new(alloc),
            rest: Vec::new(alloc),
        }
    }

    /// A copy.
    pub fn copy(&self, alloc: Global) -> Result<Self, AllocError>
        ensures { IfOk result (λ copied. AreSameClasses self.now copied) }
    {
        let rest = self.rest.to_vec(alloc)?;
        let lists = copies(alloc, &self.lists)?;
        Ok(Classes { lists, rest })
    }

    /// The numbers of a class.
    pub fn of(&self, class: usize) -> &[usize]
        ensures { result.now ≡ listed self.now (Some class) }
    {
        if self.lists.len() <= class {
            return &[];
        }
        &self.lists[class]
    }

    /// Makes room for the class.
    fn reach(&mut self, alloc: Global, class: usize) -> Result<(), AllocError>
        ensures room { OnOk result (class < length self.new.lists.items) }
        ensures lists { OnOk result ((k : ℕ) →
            get_or (map (λ l. l.items) self.new.lists.items) k [] ≡
            get_or (map (λ l. l.items) self.old.lists.items) k []) }
        ensures rest { OnOk result (self.new.rest.items ≡ self.old.rest.items) }
    {
        'each: while self.lists.len() <= class {
            self.lists.push(Vec::new(alloc))?;
        }
        Ok(())
    }

    /// Puts the number of a fact of a class, or of none, at the end of its list.
    pub fn push(
        &mut self,
        alloc: Global,
        class: Option<usize>,
        number: usize,
    ) -> Result<(), AllocError>
        ensures { OnOk result (IsClassListed class number self.old self.new) }
    {
        match class {
            None => {
                self.rest.push(number)?;
                Ok(())
            }
            Some(class) => {
                self.reach(alloc, class)?;
                self.lists[class].push(number)?;
                Ok(())
            }
        }
    }
}
