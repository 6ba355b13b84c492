//! What a `let` evaluates (Blanchet 2016, section 2.2: terms with destructors).

ghost use Rattle.std.specs.Prelude.{◌≡◌, IfOk};
ghost use Rattle.spec_trees.specs.Tree.{some_leaf, some_leaves, trees};
ghost use Rattle.spec_calculus.specs.Absence.{some_expression, is_free};
ghost use Rattle.pi_tree.specs.Expressions.{expression_of};

use crate::syntax::Term;
use std::alloc::{AllocError, Global};
use std::marker::Model;

/// What a `let` evaluates: destructors may stand at any place of it. In a protocol that was read a part without
/// destructors is a `Term`.
#[cycle(expression)]
#[derive(Debug, Drop)]
pub enum Expr {
    /// A term, which has no destructors.
    Term(Term),
    /// A constructor, numbered from 1, and its arguments.
    App(u32, Exprs),
    /// A tuple and its parts.
    Tuple(Exprs),
    /// A destructor, numbered from 1, and its arguments.
    Call(u32, Exprs),
}

/// Expressions in order.
#[cycle(expression)]
#[derive(Debug, Drop)]
pub struct Exprs {
    pub items: Vec<Expr>,
}

impl Model for Exprs {
    ghost use Rattle.std.specs.Prelude.{List, map};
    ghost use Rattle.spec_trees.specs.Tree.{depths, trees};
    ghost use Rattle.spec_calculus.specs.Syntax as calculus;
    ghost use Rattle.spec_calculus.specs.Codes.{coded_expressions};

    ghost Value = { List calculus.Expression };

    ghost coded = { coded_expressions };

    ghost use Rattle.pi_tree.specs.Expressions.{expression_of};

    ghost view = { λ a. map expression_of a.items.items };

    ghost size = { λ es. depths (trees es) };

    ghost use Rattle.pi_tree.specs.ExpressionDepths.{expressions_fall};

    ghost size_decreases = { λ a h. expressions_fall a.items.items };
}

impl Expr {
    /// Whether a term of the expression holds the free name of that number.
    #[cycle(expression_holds)]
    pub fn holds_free(&self, number: u32) -> bool
        ensures { result ≡ some_expression (is_free number) (expression_of self.now) }
    {
        match self {
            Expr::Term(term) => term.holds_free(number),
            Expr::App(_, arguments) => arguments.hold_free(number),
            Expr::Tuple(parts) => parts.hold_free(number),
            Expr::Call(_, arguments) => arguments.hold_free(number),
        }
    }
}

impl Exprs {
    /// Whether a term of one of the expressions holds the free name of that number.
    #[cycle(expression_holds)]
    pub fn hold_free(&self, number: u32) -> bool
        ensures { result ≡ some_leaves (some_leaf (is_free number)) (trees self.now) }
    {
        for expression in &self.items {
            if expression.holds_free(number) {
                return true;
            }
        }
        false
    }
}

impl Expr {
    /// A copy, its terms copied.
    #[cycle(expression_copy)]
    pub fn copy(&self, alloc: Global) -> Result<Expr, AllocError>
        ensures { IfOk result (λ copied. copied ≡ self.now) }
    {
        match self {
            Expr::Term(term) => Ok(Expr::Term(term.copy(alloc)?)),
            Expr::App(constructor, arguments) => {
                Ok(Expr::App(*constructor, arguments.copy(alloc)?))
            }
            Expr::Tuple(parts) => Ok(Expr::Tuple(parts.copy(alloc)?)),
            Expr::Call(destructor, arguments) => {
                Ok(Expr::Call(*destructor, arguments.copy(alloc)?))
            }
        }
    }
}

impl Exprs {
    /// A copy, item by item.
    #[cycle(expression_copy)]
    pub fn copy(&self, alloc: Global) -> Result<Exprs, AllocError>
        ensures { IfOk result (λ copied. copied ≡ self.now) }
    {
        let mut items = Vec::new(alloc);
        for expression in &self.items {
            items.push(expression.copy(alloc)?)?;
        }
        Ok(Exprs { items })
    }
}
