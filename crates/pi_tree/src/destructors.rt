//! Destructors and their rules (Blanchet 2016, section 2.1).

ghost use Rattle.std.specs.Prelude.{◌≡◌, IfOk};

use crate::names::Word;
use crate::syntax::{Term, Terms};
use std::alloc::{AllocError, Global};
use std::marker::Model;

/// A rule of a destructor: where the arguments are an instance of the left side, the value is that
/// instance of the right side. It holds no names, and each variable of the right side stands on the left.
#[derive(Debug)]
pub struct Rule {
    pub left: Terms,
    pub right: Term,
}

impl Drop for Rule {
    fn drop(self) {
        let Rule { left, right } = self;
        drop(left);
        drop(right);
    }
}

/// Rules in order; they are numbered from 1.
#[derive(Debug)]
pub struct Rules {
    pub items: Vec<Rule>,
}

impl Drop for Rules {
    fn drop(self) {
        let Rules { items } = self;
        drop(items);
    }
}

impl Model for Rules {
    ghost use Rattle.std.specs.Prelude.{List, map};
    ghost use Rattle.spec_calculus.specs.Syntax as calculus;
    ghost use Rattle.spec_calculus.specs.Codes.{coded_rules};

    ghost Value = { List calculus.Rule };

    ghost coded = { coded_rules };

    ghost use Rattle.pi_tree.specs.Rules.{rule_of};

    ghost view = { λ a. map rule_of a.items.items };
}

/// A destructor.
#[derive(Debug)]
pub struct Dtor {
    pub word: Word,
    pub rules: Rules,
}

impl Drop for Dtor {
    fn drop(self) {
        let Dtor { word, rules } = self;
        drop(word);
        drop(rules);
    }
}

/// Destructors in order; they are numbered from 1.
#[derive(Debug)]
pub struct Dtors {
    pub items: Vec<Dtor>,
}

impl Drop for Dtors {
    fn drop(self) {
        let Dtors { items } = self;
        drop(items);
    }
}

impl Model for Dtors {
    ghost use Rattle.std.specs.Prelude.{List, map};
    ghost use Rattle.spec_calculus.specs.Syntax as calculus;
    ghost use Rattle.spec_calculus.specs.Codes.{coded_destructors};

    ghost Value = { List calculus.Destructor };

    ghost coded = { coded_destructors };

    ghost use Rattle.pi_tree.specs.Rules.{destructor_of};

    ghost view = { λ a. map destructor_of a.items.items };
}

impl Rule {
    /// A copy, its terms copied.
    pub fn copy(&self, alloc: Global) -> Result<Rule, AllocError>
        ensures { IfOk result (λ copied. copied ≡ self.now) }
    {
        Ok(Rule {
            left: self.left.copy(alloc)?,
            right: self.right.copy(alloc)?,
        })
    }
}

impl Rules {
    /// A copy, item by item.
    pub fn copy(&self, alloc: Global) -> Result<Rules, AllocError>
        ensures { IfOk result (λ copied. copied ≡ self.now) }
    {
        let mut items = Vec::new(alloc);
        for rule in &self.items {
            items.push(rule.copy(alloc)?)?;
        }
        Ok(Rules { items })
    }
}

impl Dtor {
    /// A copy, its rules copied.
    pub fn copy(&self, alloc: Global) -> Result<Dtor, AllocError>
        ensures { IfOk result (λ copied. copied ≡ self.now) }
    {
        Ok(Dtor {
            word: self.word.copy(alloc)?,
            rules: self.rules.copy(alloc)?,
        })
    }
}

impl Dtors {
    /// A copy, item by item.
    pub fn copy(&self, alloc: Global) -> Result<Dtors, AllocError>
        ensures { IfOk result (λ copied. copied ≡ self.now) }
    {
        let mut items = Vec::new(alloc);
        for destructor in &self.items {
            items.push(destructor.copy(alloc)?)?;
        }
        Ok(Dtors { items })
    }
}
