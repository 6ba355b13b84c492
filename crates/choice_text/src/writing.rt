//! A text of format 3 made of one of format 2 and what is said of its certificates.

ghost use Rattle.std.specs.Prelude.{◌≡◌, ◌++◌, ◌<◌, ◌≤◌, [], get_or, OnOk};
ghost use Rattle.std.specs.Fmt.{decimal};
ghost use Rattle.choice_text.specs.Choices.{choice_text, said_text, choices_text, chosen_head};
ghost use Rattle.choice_text.specs.Choices.{is_head, is_before_choices, line_text, left_behind};
ghost use Rattle.choice_text.specs.Choices.{heads_in, chosen_text};

use crate::cutting::cut_line;
use crate::parts::Said;
use crate::reading::front_behind;
use itoa::Buffer;
use std::alloc::AllocError;

/// Puts a number.
fn put_number(out: &mut Vec<u8>, number: usize) -> Result<(), AllocError>
    ensures { OnOk result (out.new.items ≡ out.old.items ++ decimal number) }
{
    let mut digits = Buffer::new();
    out.extend_from_slice(digits.format(number).as_bytes())
}

/// Puts the line of a choice.
fn put_choice(out: &mut Vec<u8>, clause: usize, hypothesis: usize) -> Result<(), AllocError>
    ensures { OnOk result (out.new.items ≡ out.old.items ++ choice_text clause hypothesis) }
{
    out.extend_from_slice(b"s ")?;
    put_number(out, clause)?;
    out.push(b' ')?;
    put_number(out, hypothesis)?;
    out.push(b'\n')?;
    Ok(())
}

/// Puts the line of what is said of the clause of that number, if anything is.
fn put_said(out: &mut Vec<u8>, clause: usize, said: Option<usize>) -> Result<(), AllocError>
    ensures { OnOk result (out.new.items ≡ out.old.items ++ said_text clause said) }
{
    match said {
        Some(hypothesis) => put_choice(out, clause, hypothesis),
        None => Ok(()),
    }
}

/// Puts the lines of what is said of clauses.
fn put_all(out: &mut Vec<u8>, said: &[Option<usize>]) -> Result<(), AllocError>
    ensures { OnOk result (out.new.items ≡ out.old.items ++ choices_text 1 said.now) }
{
    let mut clause = 1;
    'each: for said in said {
        put_said(out, clause, *said)?;
        clause += 1;
    }
    Ok(())
}

/// Puts the head of a certificate of which this is said.
fn put_head(out: &mut Vec<u8>, said: &[Option<usize>], line: &[u8]) -> Result<(), AllocError>
    ensures { OnOk result (out.new.items ≡ out.old.items ++ chosen_head said.now line.now) }
{
    if said.is_empty() {
        out.extend_from_slice(line)
    } else {
        out.extend_from_slice(b"cert 3\n")
    }
}

/// What is said of the certificate behind so many; nothing where no more is said.
fn said_of(said: &Said, before: usize) -> &[Option<usize>]
    ensures { result.now ≡ get_or said.now before [] }
{
    match said.items.get(before) {
        Some(said) => said,
        None => &[],
    }
}

/// Whether the line is the head of a certificate.
fn is_head(line: &[u8]) -> bool
    ensures { result ≡ is_head line.now }
{
    line.starts_with(b"cert ")
}

/// Whether it is a clause or a node.
fn is_before_choices(line: &[u8]) -> bool
    ensures { result ≡ is_before_choices line.now }
{
    let first = front_behind(line, 0);
    first == b'c' || first == b'n'
}

/// Puts what is written for a line, where this is said of the certificate that comes next, and that is left of the last.
fn put_line(
    out: &mut Vec<u8>,
    next: &[Option<usize>],
    left: &[Option<usize>],
    line: &[u8],
) -> Result<(), AllocError>
    ensures { OnOk result (out.new.items ≡ out.old.items ++
        line_text next.now left.now line.now) }
{
    if is_head(line) {
        put_all(out, left)?;
        return put_head(out, next, line);
    }
    if is_before_choices(line) {
        return out.extend_from_slice(line);
    }
    put_all(out, left)?;
    out.extend_from_slice(line)
}

/// What is still to be written behind the line.
fn left_behind<'a>(
    next: &'a [Option<usize>],
    left: &'a [Option<usize>],
    line: &[u8],
) -> &'a [Option<usize>]
    ensures { result.now ≡ left_behind next.now left.now line.now }
{
    if is_head(line) {
        next
    } else if is_before_choices(line) {
        left
    } else {
        &[]
    }
}

/// How many certificates begin with the line.
fn heads_in(line: &[u8]) -> usize
    ensures is { result ≡ heads_in line.now }
    ensures few { result ≤ 1 }
{
    if is_head(line) { 1 } else { 0 }
}

/// Puts a text of a report in format 3: its lines, which are of format 2 or 1, and behind the clauses of each certificate of which
/// something is said a line for each choice. The heads of these certificates become those of format 3.
pub fn put_choices(out: &mut Vec<u8>, plain: &[u8], said: &Said) -> Result<(), AllocError>
    ensures { OnOk result (out.new.items ≡ out.old.items ++ chosen_text plain.now said.now) }
{
    let mut left: &[Option<usize>] = &[];
    let mut before = 0;
    let mut rest = plain;
    while !rest.is_empty() {
        let (line, later) = cut_line(rest);
        let next = said_of(said, before);
        put_line(out, next, left, line)?;
        left = left_behind(next, left, line);
        before += heads_in(line);
        rest = later;
    }
    put_all(out, left)
}
