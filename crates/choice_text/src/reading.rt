//! The numbers of a choice.

ghost use Rattle.std.specs.Prelude.{◌≡◌, ◌≤◌, drop, length};
ghost use Rattle.std.specs.Char.{is_ascii_digit};
ghost use Rattle.std.specs.List.{prefix_len};
ghost use Rattle.spec_certificate_text.specs.Outcomes as outcomes;
ghost use Rattle.choice_text.specs.Lines.{front_number, says_of, says_behind, choice_of, choice_line};
ghost use Rattle.choice_text.specs.Seen.{line_by, read_of};

use crate::parts::Refusal;
use crate::place::{Choice, Line};
use numerals::number;

/// A number, and what stands behind it.
#[derive(Clone, Copy)]
pub struct Read<'a> {
    pub number: u32,
    pub behind: &'a [u8],
}

/// The byte behind so many others; 0 where there is none.
pub(crate) fn front_behind(bytes: &[u8], others: usize) -> u8
    ensures is { result ≡ outcomes.front (drop others bytes.now) }
{
    if others < bytes.len() {
        bytes[others]
    } else {
        0
    }
}

/// How many digits stand at the front.
fn digits_len(bytes: &[u8]) -> usize
    ensures is { result ≡ prefix_len is_ascii_digit bytes.now }
    ensures within { result ≤ length bytes.now }
{
    bytes
        .iter()
        .take_while(|byte| byte.is_ascii_digit())
        .count()
}

/// The number at the front of the bytes.
fn front_number(bytes: &[u8]) -> Result<Read<'_>, Refusal>
    ensures { read_of result ≡ front_number bytes.now }
{
    let size = digits_len(bytes);
    if size == 0 || size == bytes.len() {
        return Err(Refusal::Syntax);
    }
    match number(&bytes[..size]) {
        Some(number) => Ok(Read {
            number,
            behind: &bytes[size..],
        }),
        None => Err(Refusal::Number),
    }
}

/// The choice of a clause, behind whose number these bytes stand.
fn says_behind(clause: usize, bytes: &[u8]) -> Line
    ensures { line_by result ≡ says_behind clause bytes.now }
{
    if front_behind(bytes, 0) != b' ' {
        return Line::Faulty(Refusal::Syntax);
    }
    match front_number(&bytes[1..]) {
        Ok(read) if front_behind(read.behind, 0) == b'\n' => Line::Says(Choice {
            clause,
            hypothesis: read.number as usize,
        }),
        Ok(_) => Line::Faulty(Refusal::Syntax),
        Err(refusal) => Line::Faulty(refusal),
    }
}

/// The choice of the clause of that number, behind so many clauses and a choice of the clause `last`, 0 where there is none.
fn choice_of(clauses: usize, last: usize, read: Read<'_>) -> Line
    ensures { line_by result ≡
        choice_of clauses last (Ok (read.entry.number, read.entry.behind.now)) }
{
    let clause = read.number as usize;
    if last < clause && clause <= clauses {
        says_behind(clause, read.behind)
    } else {
        Line::Faulty(Refusal::Count)
    }
}

/// The choice of a line that begins with an `s`, in the same place.
#[tactic(auto, using(crate::proofs::Choosing::choice_by_number))]
pub(crate) fn choice_line(clauses: usize, last: usize, line: &[u8]) -> Line
    ensures { line_by result ≡ choice_line clauses last line.now }
{
    if front_behind(line, 1) != b' ' {
        return Line::Faulty(Refusal::Syntax);
    }
    match front_number(&line[2..]) {
        Ok(read) => choice_of(clauses, last, read),
        Err(refusal) => Line::Faulty(refusal),
    }
}
