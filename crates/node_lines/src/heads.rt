//! What stands before the numbers of a node.

ghost use Rattle.std.specs.Prelude.{◌≡◌, ◌<◌, ℕ, List};
ghost use Rattle.spec_node_reading.specs.ReadNodes as reading;
ghost use Rattle.spec_run_text.specs.Reading.{numeral};
ghost use Rattle.term_reader.specs.Naming.{protocol_in};
ghost use Rattle.term_reader.specs.Seen.{found_of};
ghost use Rattle.fact_reader.specs.Reads.{Finds, Reads};
ghost use Rattle.node_lines.specs.Seen.{head_of};
ghost use Rattle.spec_node_counts.specs.Words.{read_word_head};

use fact_reader::{CertError, Cursor, word_end};
use numerals::number;
use term_reader::{Named, Names, begins_word, behind_first, is_variable};
use term_tree::Sym;

/// What stands before the numbers of a node: a variable, or what names a symbol.
#[derive(Clone, Copy)]
pub enum Head {
    Variable(u32),
    Names(Named),
}

/// The symbol that a head names, which begins at the place, if one.
fn as_symbol(named: Option<Named>, from: usize) -> Result<Head, CertError>
    ensures { (place : ℕ) (rest : List ℕ) → Finds head_of result place rest
        (reading.as_symbol from (found_of named) place rest) }
{
    match named {
        None => Err(CertError::Symbol(from)),
        Some(found) => Ok(Head::Names(found)),
    }
}

/// The variable of these digits behind a `v`, which stands at the place, if they are a number.
fn as_variable(digits: &[u8], from: usize) -> Result<Head, CertError>
    requires { from < usize.MAX }
    ensures { (place : ℕ) (rest : List ℕ) → Finds head_of result place rest
        (reading.as_variable from (numeral digits.now) place rest) }
{
    match number(digits) {
        None => Err(CertError::Number(from + 1)),
        Some(found) => Ok(Head::Variable(found)),
    }
}

/// Behind a word that begins at the place: `@` and a number, or nothing, where `v` and digits are a variable unless a space
/// follows.
#[tactic(auto, using(fact_reader::proofs::Places::drop_next))]
fn word_head(
    names: &Names<'_>,
    cursor: &mut Cursor<'_>,
    word: &[u8],
    from: usize,
) -> Result<Head, CertError>
    requires { from < cursor.old.at }
    ensures read { Reads head_of (λ rest place. reading.word_head (protocol_in names.now)
        word.now from place rest) cursor.old cursor.new result }
    ensures same { cursor.new.bytes.now ≡ cursor.old.bytes.now }
{
    let next = cursor.front();
    if next == b'@' {
        cursor.at += 1;
        let point = cursor.number()?;
        return as_symbol(names.name_called(word, point), from);
    }
    if is_variable(word) && next != b' ' {
        return as_variable(behind_first(word), from);
    }
    as_symbol(names.symbol_called(word), from)
}

/// A head that begins with a word.
fn head_of_word(names: &Names<'_>, cursor: &mut Cursor<'_>) -> Result<Head, CertError>
    ensures read { Reads head_of (read_word_head (protocol_in names.now))
        cursor.old cursor.new result }
    ensures same { cursor.new.bytes.now ≡ cursor.old.bytes.now }
{
    let bytes = cursor.bytes;
    let from = cursor.at;
    let end = word_end(bytes, from)?;
    cursor.at = end;
    word_head(names, cursor, &bytes[from..end], from)
}

/// What stands before the numbers of a node: a word, which may have a point, or `()`.
#[tactic(auto, using(crate::proofs::Spelled::heads))]
pub fn read_head(names: &Names<'_>, cursor: &mut Cursor<'_>) -> Result<Head, CertError>
    ensures read { Reads head_of (reading.read_head (protocol_in names.now))
        cursor.old cursor.new result }
    ensures same { cursor.new.bytes.now ≡ cursor.old.bytes.now }
{
    if begins_word(cursor.front()) {
        return head_of_word(names, cursor);
    }
    cursor.pass(b"()")?;
    Ok(Head::Names(Named {
        symbol: Sym::Tuple(0),
        arity: 0,
    }))
}
