//! The parts of a text that stand round the arguments of a symbol or an event.

ghost use Rattle.std.specs.Prelude.{◌≡◌, ◌<◌, ◌≤◌, ◌++◌, OnOk};
ghost use Rattle.std.specs.Fmt.{decimal as decimal_of};
ghost use Rattle.pi_tree.specs.Protocols.{protocol_of};
ghost use Rattle.term_tree.specs.Bank.{symbol_of};
ghost use Rattle.cert_form.specs.Appends.{Appends};
ghost use Rattle.cert_form.specs.Parts.{is_alone, word_opening, word_closing, made_opening, symbol_opening, symbol_closing, comma_at, gap_at};
ghost use Rattle.cert_form.specs.Premises.{gap_behind, space_where};
ghost use Rattle.spec_certificate_text.specs.Sides.{first_bound, variable_word};

use crate::words::{declared_word, word_at};
use clause_form::Trees;
use itoa::Buffer;
use pi_tree::Protocol;
use std::alloc::AllocError;
use term_tree::Sym;

/// Puts bytes at the end.
pub fn put(out: &mut Vec<u8>, bytes: &[u8]) -> Result<(), AllocError>
    ensures { OnOk result (Appends (λ rest. bytes.now ++ rest) out.old.items out.new.items) }
{
    out.extend_from_slice(bytes)
}

/// Puts the digits of a number.
pub fn put_number(out: &mut Vec<u8>, number: u64) -> Result<(), AllocError>
    ensures { OnOk result (Appends (λ rest. decimal_of number ++ rest) out.old.items
        out.new.items) }
{
    let mut digits = Buffer::new();
    put(out, digits.format(number).as_bytes())
}

/// Whether there are no arguments.
pub fn is_alone(arguments: &Trees) -> bool
    ensures { result ≡ is_alone arguments.now }
{
    arguments.items.is_empty()
}

/// Puts a word, and `(` behind it unless it stands alone.
pub fn put_word(out: &mut Vec<u8>, word: &[u8], alone: bool) -> Result<(), AllocError>
    ensures { OnOk result (Appends (word_opening word.now alone) out.old.items out.new.items) }
{
    put(out, word)?;
    if alone { Ok(()) } else { put(out, b"(") }
}

/// Puts `)`, unless the word before stands alone.
pub fn put_word_end(out: &mut Vec<u8>, alone: bool) -> Result<(), AllocError>
    ensures { OnOk result (Appends (word_closing alone) out.old.items out.new.items) }
{
    if alone { Ok(()) } else { put(out, b")") }
}

/// Puts what stands before the arguments of the name of a restriction.
fn put_made(out: &mut Vec<u8>, protocol: &Protocol, point: u32) -> Result<(), AllocError>
    ensures { OnOk result (Appends (made_opening (protocol_of protocol.now) point) out.old.items
        out.new.items) }
{
    put(out, word_at(protocol, point))?;
    put(out, b"@")?;
    put_number(out, point as u64)?;
    put(out, b"[")
}

/// Puts what stands before the arguments of a symbol.
pub fn put_opening(
    out: &mut Vec<u8>,
    protocol: &Protocol,
    symbol: Sym,
    alone: bool,
) -> Result<(), AllocError>
    ensures { OnOk result (Appends (symbol_opening (protocol_of protocol.now) (symbol_of symbol)
        alone) out.old.items out.new.items) }
{
    match symbol {
        Sym::Ctor(number) | Sym::Data(number) => {
            put_word(out, declared_word(&protocol.ctors, number), alone)
        }
        Sym::Tuple(_) => put(out, b"("),
        Sym::Free(number) => put_word(out, declared_word(&protocol.frees, number), alone),
        Sym::Point(point) => put_made(out, protocol, point),
        Sym::Attacker => put(out, b"@["),
    }
}

/// Puts what stands behind the arguments of a symbol.
pub fn put_closing(out: &mut Vec<u8>, symbol: Sym, alone: bool) -> Result<(), AllocError>
    ensures { OnOk result (Appends (symbol_closing (symbol_of symbol) alone) out.old.items
        out.new.items) }
{
    match symbol {
        Sym::Ctor(_) | Sym::Data(_) | Sym::Free(_) => put_word_end(out, alone),
        Sym::Tuple(_) => put(out, b")"),
        Sym::Point(_) | Sym::Attacker => put(out, b"]"),
    }
}

/// Puts what stands before the argument of that place, from 0.
pub fn put_comma(out: &mut Vec<u8>, place: usize) -> Result<(), AllocError>
    ensures { OnOk result (Appends (comma_at place) out.old.items out.new.items) }
{
    if place == 0 { Ok(()) } else { put(out, b",") }
}

/// Puts what stands before the hypothesis of that place, from 0.
pub fn put_gap(out: &mut Vec<u8>, place: usize) -> Result<(), AllocError>
    ensures { OnOk result (Appends (gap_at place) out.old.items out.new.items) }
{
    if place == 0 { Ok(()) } else { put(out, b", ") }
}

/// Puts what stands before the constraint of that place, from 0, behind hypotheses or not.
pub fn put_gap_behind(out: &mut Vec<u8>, behind: bool, place: usize) -> Result<(), AllocError>
    ensures { OnOk result (Appends (gap_behind behind place) out.old.items out.new.items) }
{
    if behind {
        put(out, b", ")
    } else {
        put_gap(out, place)
    }
}

/// Puts a space, where one is wanted.
pub fn put_space(out: &mut Vec<u8>, wanted: bool) -> Result<(), AllocError>
    ensures { OnOk result (Appends (space_where wanted) out.old.items out.new.items) }
{
    if wanted { put(out, b" ") } else { Ok(()) }
}

/// The number from which on variables are spelled as bound ones: no number of a text has as many digits.
pub const FIRST_BOUND: u32 = 1_000_000_000;

/// Puts a variable of the clause: `v` and its number.
fn put_own(out: &mut Vec<u8>, number: u32) -> Result<(), AllocError>
    requires { number < first_bound }
    ensures { OnOk result (Appends (λ rest. variable_word number ++ rest) out.old.items
        out.new.items) }
{
    put(out, b"v")?;
    put_number(out, number as u64)
}

/// Puts a variable that a constraint binds: `?` and its number.
fn put_bound(out: &mut Vec<u8>, number: u32) -> Result<(), AllocError>
    requires { first_bound ≤ number }
    ensures { OnOk result (Appends (λ rest. variable_word number ++ rest) out.old.items
        out.new.items) }
{
    put(out, b"?")?;
    put_number(out, (number - FIRST_BOUND) as u64)
}

/// Puts a variable, of the clause or a bound one.
pub fn put_variable(out: &mut Vec<u8>, number: u32) -> Result<(), AllocError>
    ensures { OnOk result (Appends (λ rest. variable_word number ++ rest) out.old.items
        out.new.items) }
{
    if number < FIRST_BOUND {
        return put_own(out, number);
    }
    put_bound(out, number)
}
