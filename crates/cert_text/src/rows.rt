//! Rows of numbers.

ghost use Rattle.std.specs.Prelude.{◌≡◌};
ghost use Rattle.spec_certificate_text.specs.Certificates as reading;
ghost use Rattle.spec_certificate_text.specs.Outcomes.{things};
ghost use Rattle.fact_reader.specs.Gives.{same};
ghost use Rattle.fact_reader.specs.Reads.{Reads};
ghost use Rattle.cert_text.specs.Seen.{numbers_of};

use cert_form::Rows;
use fact_reader::{CertError, Cursor};
use std::alloc::Global;

/// The numbers of a row.
#[derive(Drop)]
struct Numbers {
    items: Vec<u32>,
}

/// A number and what stands behind it: a space where another follows, or the end of the line.
#[tactic(auto, using(fact_reader::proofs::Places::drop_next))]
fn one_number(cursor: &mut Cursor<'_>) -> Result<(u32, bool), CertError>
    ensures read { Reads same reading.one_number cursor.old cursor.new result }
    ensures same { cursor.new.bytes.now ≡ cursor.old.bytes.now }
{
    let found = cursor.number()?;
    if cursor.front() == b' ' {
        cursor.at += 1;
        return Ok((found, true));
    }
    cursor.pass(b"\n")?;
    Ok((found, false))
}

/// Numbers, a space between each two, and the end of the line.
#[tactic(auto, using(fact_reader::proofs::Things::going))]
fn row_numbers(alloc: Global, cursor: &mut Cursor<'_>) -> Result<Numbers, CertError>
    ensures read { Reads numbers_of (things reading.one_number) cursor.old cursor.new result }
    ensures same { cursor.new.bytes.now ≡ cursor.old.bytes.now }
{
    let mut items = Vec::new(alloc);
    for round in cursor.at..cursor.bytes.len() {
        let (next, more) = one_number(cursor)?;
        items.push(next)?;
        if !more {
            return Ok(Numbers { items });
        }
    }
    Err(CertError::Syntax(cursor.at))
}

/// The letter, a space, and numbers on a line.
fn row(alloc: Global, cursor: &mut Cursor<'_>, letter: u8) -> Result<Numbers, CertError>
    ensures read { Reads numbers_of (reading.row_line letter) cursor.old cursor.new result }
    ensures same { cursor.new.bytes.now ≡ cursor.old.bytes.now }
{
    cursor.pass(&[letter, b' '])?;
    row_numbers(alloc, cursor)
}

/// All rows whose lines begin with the letter.
#[tactic(auto, using(crate::proofs::Lines::lines))]
pub fn rows(alloc: Global, cursor: &mut Cursor<'_>, letter: u8) -> Result<Rows, CertError>
    ensures read { Reads same (reading.read_rows letter) cursor.old cursor.new result }
    ensures same { cursor.new.bytes.now ≡ cursor.old.bytes.now }
{
    let mut items = Vec::new(alloc);
    for round in cursor.at..cursor.bytes.len() {
        if cursor.front() != letter {
            return Ok(Rows { items });
        }
        let next = row(alloc, cursor, letter)?;
        items.push(next.items)?;
    }
    if cursor.front() == letter {
        return Err(CertError::Count(cursor.at));
    }
    Ok(Rows { items })
}
