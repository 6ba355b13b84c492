//! How far a term was read.

ghost use Rattle.std.specs.Prelude.{◌≡◌, [], ◌∷◌, IfOk};
ghost use Rattle.spec_certificate_text.specs.Steps.{is_deep};
ghost use Rattle.term_reader.specs.Seen.{open_of, heads_of};
ghost use Rattle.term_reader.specs.SeenSteps.{IsPopped};

use clause_form::{Tree, Trees};
use pi_tree::MOST_TERM_LEVELS;
use std::alloc::{AllocError, Global};
use term_tree::Sym;

/// Why a text is refused.
#[derive(Clone, Copy)]
pub enum Code {
    /// The text can't go on with this byte.
    Syntax,
    /// No decimal number of at most nine digits without leading zero.
    Number,
    /// A word that names nothing that may stand there.
    Symbol,
    /// A wrong number of arguments.
    Arity,
    /// Too deep.
    Count,
}

/// A symbol whose arguments are being read: how many it takes, where it stands, and those that were read.
#[derive(Drop)]
pub struct Open {
    pub symbol: Sym,
    pub arity: u32,
    pub place: usize,
    pub arguments: Trees,
}

/// The symbols whose arguments are being read, the innermost last.
#[derive(Drop)]
pub struct Heads {
    pub items: Vec<Open>,
}

/// A word, and the digits behind it and `@`.
#[derive(Drop)]
pub struct Pointed {
    pub word: Vec<u8>,
    pub digits: Vec<u8>,
}

/// What was read of the innermost term.
#[derive(Drop)]
pub enum Mode {
    Begins,
    InWord(Vec<u8>),
    InDigits(Pointed),
    AtBracket,
    /// The `?` of a bound variable, and digits.
    InBound(Vec<u8>),
    Ended(Tree),
}

/// The symbols whose arguments are being read, the innermost term, and where its word began.
#[derive(Drop)]
pub struct Reading {
    pub heads: Heads,
    pub mode: Mode,
    pub from: usize,
}

/// What a byte does: reading goes on behind it, a term ended before it, or the text is refused at a place.
#[derive(Drop)]
pub enum Step {
    Goes(Reading),
    Ends(Tree),
    Fault(usize, Code),
}

/// The innermost symbol, if there is one, and the others.
#[derive(Drop)]
pub enum Popped {
    Empty(Heads),
    Top(Open, Heads),
}

/// No symbol is being read.
pub fn no_heads(alloc: Global) -> Heads
    ensures { heads_of result ≡ [] }
{
    Heads {
        items: Vec::new(alloc),
    }
}

/// One more symbol, the innermost.
#[tactic(auto, using(crate::proofs::Stack::stack))]
pub fn push_head(mut heads: Heads, head: Open) -> Result<Heads, AllocError>
    ensures { IfOk result (λ pushed. heads_of pushed ≡ open_of head ∷ heads_of heads) }
{
    heads.items.push(head)?;
    Ok(heads)
}

/// Takes the innermost symbol off.
#[tactic(auto, using(crate::proofs::Stack::stack))]
pub fn pop_head(mut heads: Heads) -> Popped
    ensures { IsPopped (heads_of heads) result }
{
    match heads.items.pop() {
        None => Popped::Empty(heads),
        Some(head) => Popped::Top(head, heads),
    }
}

/// Whether a term that begins here would be too deep.
#[tactic(auto, using(crate::proofs::Stack::stack))]
pub fn is_deep(heads: &Heads) -> bool
    ensures { result ≡ is_deep (heads_of heads.now) }
{
    heads.items.len() >= MOST_TERM_LEVELS
}
