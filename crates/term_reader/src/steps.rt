//! What each byte does.

ghost use Rattle.std.specs.Prelude.{◌≡◌, ◌+◌, ◌<◌, ◌∷◌, ◌++◌, [], cond, IfOk, Some};
ghost use Rattle.spec_trees.specs.Tree.{Leaf};
ghost use Rattle.spec_certificate_text.specs.Sides.{first_bound};
ghost use Rattle.spec_certificate_text.specs.Spelled.{goes_on};
ghost use Rattle.term_tree.specs.Bank.{symbol_of};
ghost use Rattle.clause_form.specs.Plain.{term_of};
ghost use Rattle.term_reader.specs.Naming.{protocol_in};
ghost use Rattle.spec_run_text.specs.Reading.{numeral};
ghost use Rattle.spec_certificate_text.specs.Names as called;
ghost use Rattle.spec_certificate_text.specs.Steps as steps;
ghost use Rattle.spec_certificate_text.specs.Terms as terms;
ghost use Rattle.term_reader.specs.Seen.{named_of, found_of, open_of, heads_of, mode_of, reading_of};
ghost use Rattle.term_reader.specs.SeenSteps.{code_of, step_of};

use crate::classes::{
    begins_word, behind_first, closing_byte, goes_on, has_arity, is_in_word, is_variable,
    may_be_empty, may_close, may_go_on, with_parts,
};
use crate::state::{
    Code, Heads, Mode, Open, Pointed, Popped, Reading, Step, is_deep, pop_head, push_head,
};
use crate::words::{Named, Names};
use clause_form::{Tree, Trees};
use numerals::number;
use std::alloc::{AllocError, Global};
use term_tree::Sym;

/// The number from which on variables are bound ones: no number of a text has as many digits.
pub const FIRST_BOUND: u32 = 1_000_000_000;

/// A byte, the place where it stands, where the word before it began, and whether bound variables may stand there, as in
/// constraints.
#[derive(Clone, Copy)]
pub struct Here {
    pub at: usize,
    pub byte: u8,
    pub from: usize,
    pub binds: bool,
}

/// Reading goes on in this way.
fn goes(heads: Heads, mode: Mode, from: usize) -> Step
    ensures { step_of result ≡ steps.goes (heads_of heads) (mode_of mode) from }
{
    Step::Goes(Reading { heads, mode, from })
}

/// The symbol is opened.
fn opened(alloc: Global, heads: Heads, named: Named, from: usize) -> Result<Step, AllocError>
    ensures { IfOk result (λ s. step_of s ≡ steps.opened (heads_of heads) (named_of named) from) }
{
    let head = Open {
        symbol: named.symbol,
        arity: named.arity,
        place: from,
        arguments: Trees {
            items: Vec::new(alloc),
        },
    };
    let pushed = push_head(heads, head)?;
    Ok(goes(pushed, Mode::Begins, from))
}

/// The symbol is opened, unless it is too deep.
fn opened_there(alloc: Global, heads: Heads, named: Named, from: usize) -> Result<Step, AllocError>
    ensures { IfOk result (λ s. step_of s ≡ steps.unless_deep (heads_of heads) from
        (steps.opened (heads_of heads) (named_of named) from)) }
{
    if is_deep(&heads) {
        Ok(Step::Fault(from, Code::Count))
    } else {
        opened(alloc, heads, named, from)
    }
}

/// The arguments of a symbol end.
#[tactic(auto, using(crate::proofs::Closing::closing))]
fn closed(head: Open, heads: Heads) -> Step
    ensures { step_of result ≡ steps.closed (open_of head) (heads_of heads) head.arguments }
{
    let parts = head.arguments.items.len();
    if !has_arity(head.symbol, head.arity, parts) {
        return Step::Fault(head.place, Code::Arity);
    }
    if is_deep(&heads) {
        return Step::Fault(head.place, Code::Count);
    }
    let symbol = with_parts(head.symbol, parts);
    let term = Tree::App(symbol, head.arguments);
    goes(heads, Mode::Ended(term), head.place)
}

/// The symbol with one more argument.
fn with_argument(mut head: Open, term: Tree) -> Result<Open, AllocError>
    ensures { IfOk result (λ o. open_of o ≡ record (open_of head)
        { arguments = head.arguments ++ term_of term ∷ [] }) }
{
    head.arguments.items.push(term)?;
    Ok(head)
}

/// Another argument comes.
fn go_on(term: Tree, head: Open, heads: Heads, from: usize) -> Result<Step, AllocError>
    ensures { IfOk result (λ s. step_of s ≡ steps.goes
        (record (open_of head) { arguments = head.arguments ++ term_of term ∷ [] } ∷ heads_of heads)
        terms.Begins from) }
{
    let longer = with_argument(head, term)?;
    let pushed = push_head(heads, longer)?;
    Ok(goes(pushed, Mode::Begins, from))
}

/// The last argument ended.
fn close(term: Tree, head: Open, heads: Heads) -> Result<Step, AllocError>
    ensures { IfOk result (λ s. step_of s ≡ steps.closed (open_of head) (heads_of heads)
        (head.arguments ++ term_of term ∷ [])) }
{
    let longer = with_argument(head, term)?;
    Ok(closed(longer, heads))
}

/// An argument ended.
fn after_argument(here: Here, term: Tree, head: Open, heads: Heads) -> Result<Step, AllocError>
    ensures { IfOk result (λ s. step_of s ≡ steps.after_term here.at (term_of term)
        (open_of head ∷ heads_of heads) here.from here.byte) }
{
    if here.byte == b',' && may_go_on(head.symbol) {
        return go_on(term, head, heads, here.from);
    }
    let others = head.arguments.items.len();
    if here.byte == closing_byte(head.symbol) && may_close(head.symbol, others) {
        return close(term, head, heads);
    }
    Ok(Step::Fault(here.at, Code::Syntax))
}

/// A term ended.
fn after_term(here: Here, term: Tree, heads: Heads) -> Result<Step, AllocError>
    ensures { IfOk result (λ s. step_of s ≡ steps.after_term here.at (term_of term) (heads_of heads)
        here.from here.byte) }
{
    match pop_head(heads) {
        Popped::Empty(_) => Ok(Step::Ends(term)),
        Popped::Top(head, others) => after_argument(here, term, head, others),
    }
}

/// A word begins.
fn begin_word(alloc: Global, here: Here, heads: Heads) -> Result<Step, AllocError>
    ensures { IfOk result (λ s. step_of s ≡ steps.goes (heads_of heads)
        (terms.InWord (here.byte ∷ [])) here.at) }
{
    let word = Vec::from_array(alloc, [here.byte])?;
    Ok(goes(heads, Mode::InWord(word), here.at))
}

/// An attacker's name begins.
fn begin_attacker(here: Here, heads: Heads) -> Step
    ensures { step_of result ≡ steps.unless_deep (heads_of heads) here.at
        (steps.goes (heads_of heads) terms.AtBracket here.at) }
{
    if is_deep(&heads) {
        return Step::Fault(here.at, Code::Count);
    }
    goes(heads, Mode::AtBracket, here.at)
}

/// A bound variable begins: it may stand in a constraint alone.
fn begin_bound(alloc: Global, here: Here, heads: Heads) -> Step
    ensures { step_of result ≡ steps.begin_bound here.binds here.at (heads_of heads) }
{
    if !here.binds {
        return Step::Fault(here.at, Code::Symbol);
    }
    if is_deep(&heads) {
        return Step::Fault(here.at, Code::Count);
    }
    goes(heads, Mode::InBound(Vec::new(alloc)), here.at)
}

/// A term begins.
fn begin_term(alloc: Global, here: Here, heads: Heads) -> Result<Step, AllocError>
    ensures { IfOk result (λ s. step_of s ≡ steps.begin_term here.binds here.at (heads_of heads) here.byte) }
{
    if begins_word(here.byte) {
        return begin_word(alloc, here, heads);
    }
    if here.byte == b'(' {
        let tuple = Named {
            symbol: Sym::Tuple(0),
            arity: 0,
        };
        return opened_there(alloc, heads, tuple, here.at);
    }
    if here.byte == b'@' {
        return Ok(begin_attacker(here, heads));
    }
    if here.byte == b'?' {
        return Ok(begin_bound(alloc, here, heads));
    }
    Ok(Step::Fault(here.at, Code::Syntax))
}

/// An argument begins, or the arguments end before the first.
#[tactic(auto, using(crate::proofs::Closing::closing))]
fn begin_argument(alloc: Global, here: Here, head: Open, heads: Heads) -> Result<Step, AllocError>
    ensures { IfOk result (λ s. step_of s ≡ steps.at_begin here.binds here.at (open_of head ∷ heads_of heads)
        here.byte) }
{
    if here.byte == b']' && may_be_empty(head.symbol, &head.arguments) {
        return Ok(closed(head, heads));
    }
    if is_deep(&heads) {
        return Ok(Step::Fault(head.place, Code::Count));
    }
    let pushed = push_head(heads, head)?;
    begin_term(alloc, here, pushed)
}

/// Where a term may begin.
fn at_begin(alloc: Global, here: Here, heads: Heads) -> Result<Step, AllocError>
    ensures { IfOk result (λ s. step_of s ≡ steps.at_begin here.binds here.at (heads_of heads) here.byte) }
{
    match pop_head(heads) {
        Popped::Empty(none) => begin_term(alloc, here, none),
        Popped::Top(head, others) => begin_argument(alloc, here, head, others),
    }
}

/// A variable ended with these digits.
fn after_variable(here: Here, heads: Heads, digits: &[u8]) -> Result<Step, AllocError>
    ensures { IfOk result (λ s. step_of s ≡ steps.after_variable here.at (heads_of heads) here.from
        digits.now (numeral digits.now) here.byte) }
{
    match number(digits) {
        None => Ok(Step::Fault(here.at.saturating_sub(digits.len()), Code::Number)),
        Some(x) => after_term(here, Tree::Var(x), heads),
    }
}

/// A word alone ended that names this symbol.
fn after_symbol(alloc: Global, here: Here, heads: Heads, named: Named) -> Result<Step, AllocError>
    ensures { IfOk result (λ s. step_of s ≡ steps.after_name here.at (heads_of heads) here.from
        (Some (named_of named)) here.byte) }
{
    if named.arity != 0 {
        return Ok(Step::Fault(here.from, Code::Arity));
    }
    if is_deep(&heads) {
        return Ok(Step::Fault(here.from, Code::Count));
    }
    let arguments = Trees {
        items: Vec::new(alloc),
    };
    after_term(here, Tree::App(named.symbol, arguments), heads)
}

/// A word alone ended that names this, if anything.
fn after_name(
    alloc: Global,
    here: Here,
    heads: Heads,
    named: Option<Named>,
) -> Result<Step, AllocError>
    ensures { IfOk result (λ s. step_of s ≡ steps.after_name here.at (heads_of heads) here.from
        (found_of named) here.byte) }
{
    match named {
        None => Ok(Step::Fault(here.from, Code::Symbol)),
        Some(found) => after_symbol(alloc, here, heads, found),
    }
}

/// A word alone ended.
fn after_word(names: &Names<'_>, here: Here, heads: Heads, word: &[u8]) -> Result<Step, AllocError>
    ensures { IfOk result (λ s. step_of s ≡ steps.after_word (protocol_in names.now) here.at
        (heads_of heads) here.from word.now here.byte) }
{
    if !is_variable(word) {
        return after_name(names.alloc, here, heads, names.symbol_called(word));
    }
    if is_deep(&heads) {
        return Ok(Step::Fault(here.from, Code::Count));
    }
    after_variable(here, heads, behind_first(word))
}

/// A word before its arguments that names this, if anything.
fn apply(alloc: Global, here: Here, heads: Heads, named: Option<Named>) -> Result<Step, AllocError>
    ensures { IfOk result (λ s. step_of s ≡ steps.apply (heads_of heads) here.from
        (found_of named)) }
{
    match named {
        None => Ok(Step::Fault(here.from, Code::Symbol)),
        Some(found) => opened_there(alloc, heads, found, here.from),
    }
}

/// The word goes on.
fn longer_word(here: Here, heads: Heads, mut word: Vec<u8>) -> Result<Step, AllocError>
    ensures { IfOk result (λ s. step_of s ≡ steps.goes (heads_of heads)
        (terms.InWord (word.items ++ here.byte ∷ [])) here.from) }
{
    word.push(here.byte)?;
    Ok(goes(heads, Mode::InWord(word), here.from))
}

/// Within a word.
fn in_word(names: &Names<'_>, here: Here, heads: Heads, word: Vec<u8>) -> Result<Step, AllocError>
    ensures { IfOk result (λ s. step_of s ≡ steps.in_word (protocol_in names.now) here.at
        (heads_of heads) here.from word.items here.byte) }
{
    if is_in_word(here.byte) {
        return longer_word(here, heads, word);
    }
    if here.byte == b'(' {
        return apply(names.alloc, here, heads, names.symbol_called(&word));
    }
    if here.byte == b'@' {
        let digits = Vec::new(names.alloc);
        return Ok(goes(heads, Mode::InDigits(Pointed { word, digits }), here.from));
    }
    after_word(names, here, heads, &word)
}

/// The text can't go on here, unless the term is too deep.
fn no_further(here: Here, heads: &Heads, place: usize, code: Code) -> Step
    ensures { step_of result ≡ steps.unless_deep (heads_of heads.now) here.from
        (terms.Fault place (code_of code)) }
{
    if is_deep(heads) {
        Step::Fault(here.from, Code::Count)
    } else {
        Step::Fault(place, code)
    }
}

/// Behind the point of a restriction, if there is one.
fn after_point(
    alloc: Global,
    here: Here,
    heads: Heads,
    named: Option<Named>,
) -> Result<Step, AllocError>
    ensures { IfOk result (λ s. step_of s ≡ steps.after_point here.at (heads_of heads) here.from
        (found_of named) here.byte) }
{
    match named {
        None => Ok(Step::Fault(here.from, Code::Symbol)),
        Some(found) => {
            if here.byte == b'[' {
                opened(alloc, heads, found, here.from)
            } else {
                Ok(no_further(here, &heads, here.at, Code::Syntax))
            }
        }
    }
}

/// A word, `@` and digits ended.
fn after_digits(
    names: &Names<'_>,
    here: Here,
    heads: Heads,
    name: &Pointed,
) -> Result<Step, AllocError>
    ensures { IfOk result (λ s. step_of s ≡ steps.after_digits (protocol_in names.now) here.at
        (heads_of heads) here.from name.now.word.items name.now.digits.items here.byte) }
{
    if name.digits.is_empty() {
        return Ok(no_further(here, &heads, here.at, Code::Syntax));
    }
    match number(&name.digits) {
        None => {
            let place = here.at.saturating_sub(name.digits.len());
            Ok(no_further(here, &heads, place, Code::Number))
        }
        Some(point) => {
            let named = names.name_called(&name.word, point);
            after_point(names.alloc, here, heads, named)
        }
    }
}

/// The digits go on.
fn more_digits(here: Here, heads: Heads, mut name: Pointed) -> Result<Step, AllocError>
    ensures { IfOk result (λ s. step_of s ≡ steps.goes (heads_of heads)
        (terms.InDigits name.word.items (name.digits.items ++ here.byte ∷ [])) here.from) }
{
    name.digits.push(here.byte)?;
    Ok(goes(heads, Mode::InDigits(name), here.from))
}

/// Within digits.
fn in_digits(names: &Names<'_>, here: Here, heads: Heads, name: Pointed) -> Result<Step, AllocError>
    ensures { IfOk result (λ s. step_of s ≡ steps.in_digits (protocol_in names.now) here.at
        (heads_of heads) here.from name.word.items name.digits.items here.byte) }
{
    if here.byte.is_ascii_digit() {
        more_digits(here, heads, name)
    } else {
        after_digits(names, here, heads, &name)
    }
}

/// A bound variable of this number ended.
fn after_bound(here: Here, heads: Heads, number: u32) -> Result<Step, AllocError>
    requires { number < first_bound }
    ensures { IfOk result (λ s. step_of s ≡
        cond (goes_on here.byte) (terms.Fault here.at terms.Syntax)
        (steps.after_term here.at (Leaf (first_bound + number)) (heads_of heads) here.from
        here.byte)) }
{
    if goes_on(here.byte) {
        return Ok(Step::Fault(here.at, Code::Syntax));
    }
    after_term(here, Tree::Var(FIRST_BOUND + number), heads)
}

/// Digits behind a `?` ended.
#[tactic(auto, using(crate::proofs::Variables::bound))]
fn bound_ended(here: Here, heads: Heads, digits: &[u8]) -> Result<Step, AllocError>
    ensures { IfOk result (λ s. step_of s ≡ steps.bound_ended here.at (heads_of heads) here.from
        digits.now here.byte) }
{
    if digits.is_empty() {
        return Ok(Step::Fault(here.at, Code::Syntax));
    }
    match number(digits) {
        None => Ok(Step::Fault(here.at.saturating_sub(digits.len()), Code::Number)),
        Some(bound) => after_bound(here, heads, bound),
    }
}

/// Within the digits of a bound variable.
fn in_bound(here: Here, heads: Heads, mut digits: Vec<u8>) -> Result<Step, AllocError>
    ensures { IfOk result (λ s. step_of s ≡ steps.in_bound here.at (heads_of heads) here.from
        digits.items here.byte) }
{
    if here.byte.is_ascii_digit() {
        digits.push(here.byte)?;
        return Ok(goes(heads, Mode::InBound(digits), here.from));
    }
    bound_ended(here, heads, &digits)
}

/// Behind the `@` of an attacker's name.
fn at_bracket(alloc: Global, here: Here, heads: Heads) -> Result<Step, AllocError>
    ensures { IfOk result (λ s. step_of s ≡ steps.at_bracket here.at (heads_of heads) here.from
        here.byte) }
{
    if here.byte != b'[' {
        return Ok(Step::Fault(here.at, Code::Syntax));
    }
    let attacker = Named {
        symbol: Sym::Attacker,
        arity: 1,
    };
    opened(alloc, heads, attacker, here.from)
}

/// What the byte does that stands at the place, in a constraint or in a fact.
pub fn step(
    names: &Names<'_>,
    at: usize,
    reading: Reading,
    byte: u8,
    binds: bool,
) -> Result<Step, AllocError>
    ensures { IfOk result (λ s. step_of s ≡ steps.step binds (protocol_in names.now) at
        (reading_of reading) byte) }
{
    let Reading { heads, mode, from } = reading;
    let here = Here {
        at,
        byte,
        from,
        binds,
    };
    match mode {
        Mode::Begins => at_begin(names.alloc, here, heads),
        Mode::InWord(word) => in_word(names, here, heads, word),
        Mode::InDigits(name) => in_digits(names, here, heads, name),
        Mode::AtBracket => at_bracket(names.alloc, here, heads),
        Mode::InBound(digits) => in_bound(here, heads, digits),
        Mode::Ended(term) => after_term(here, term, heads),
    }
}
