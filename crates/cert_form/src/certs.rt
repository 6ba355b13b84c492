//! Certificates as owned trees and numbers, and their texts.

ghost use Rattle.std.specs.Prelude.{◌≡◌, ◌⊎◌, [], ◌++◌, IfOk, OnOk};
ghost use Rattle.pi_tree.specs.Protocols.{protocol_of};
ghost use Rattle.spec_certificate_text.specs.Text.{numbers_text, row_lines};
ghost use Rattle.spec_node_tables.specs.Large.{FitsInNodes, is_large_in_nodes};
ghost use Rattle.cert_form.specs.Appends.{Appends};
ghost use Rattle.cert_form.specs.Writing.{spelled_clauses, numbered_clauses, clauses_in, text_in, format_for};

use crate::clause_text::put_clause_lines;
use crate::nodes::put_nodes;
use crate::parts::{put, put_number};
use crate::writing::Spelled;
use clause_form::PlainClause;
use node_table::{NodeTable, is_large_in_nodes};
use pi_tree::Protocol;
use spec_node_tables::what_fits_in_nodes;
use std::alloc::{AllocError, Global};
use std::marker::Model;
use std::rc::Rc;

/// Clauses over owned trees, in order. A clause may stand in several such lists, which share it.
#[derive(Debug)]
pub struct PlainClauses {
    pub items: Vec<Rc<PlainClause>>,
}

impl Drop for PlainClauses {
    fn drop(self) {
        let PlainClauses { items } = self;
        drop(items);
    }
}

impl Model for PlainClauses {
    ghost use Rattle.std.specs.Prelude.{List, map};
    ghost use Rattle.std.specs.Rc.{rc_value};
    ghost use Rattle.spec_terms.specs.Term.{Term, coded_term};
    ghost use Rattle.spec_clauses.specs.Fact as horn;
    ghost use Rattle.clause_form.specs.Codes.{coded_clauses};

    ghost Value = { List (horn.Clause Term) };

    ghost coded = { coded_clauses coded_term };

    ghost view = { λ a. map rc_value a.items.items };
}

/// Rows of numbers, in order.
#[derive(Debug)]
pub struct Rows {
    pub items: Vec<Vec<u32>>,
}

impl Drop for Rows {
    fn drop(self) {
        let Rows { items } = self;
        drop(items);
    }
}

impl Model for Rows {
    ghost use Rattle.std.specs.Prelude.{List, ℕ, map};
    ghost use Rattle.cert_form.specs.Codes.{coded_rows};

    ghost Value = { List (List ℕ) };

    ghost coded = { coded_rows };

    ghost view = { λ a. map (λ row. row.items) a.items.items };
}

/// A certificate: its clauses, its cover rows, each the number of a clause and positions, and its goal rows, each the number
/// of an alternative and positions.
#[derive(Debug)]
pub struct Cert {
    pub clauses: PlainClauses,
    pub rows: Rows,
    pub goals: Rows,
}

impl Drop for Cert {
    fn drop(self) {
        let Cert {
            clauses,
            rows,
            goals,
        } = self;
        drop(clauses);
        drop(rows);
        drop(goals);
    }
}

impl Model for Cert {
    ghost use Rattle.spec_certificates.specs.Certificate.{Certificate};
    ghost use Rattle.cert_form.specs.Codes.{coded_certificate};

    ghost Value = { Certificate };

    ghost coded = { coded_certificate };

    ghost view = { λ c. record { clauses = c.clauses; rows = c.rows; goals = c.goals } };
}

/// Puts numbers, a space before each.
fn put_numbers(out: &mut Vec<u8>, numbers: &[u32]) -> Result<(), AllocError>
    ensures { OnOk result (Appends (numbers_text numbers.now) out.old.items out.new.items) }
{
    'each: for number in numbers {
        put(out, b" ")?;
        put_number(out, *number as u64)?;
    }
    Ok(())
}

/// Puts a line for each row, which begins with the letter.
fn put_rows(out: &mut Vec<u8>, letter: u8, rows: &Rows) -> Result<(), AllocError>
    ensures { OnOk result (Appends (row_lines letter rows.now) out.old.items out.new.items) }
{
    'each: for row in &rows.items {
        put(out, &[letter])?;
        put_numbers(out, row)?;
        put(out, b"\n")?;
    }
    Ok(())
}

/// The format in which each term of a certificate is written as it stands.
const SPELLED: u8 = 1;

/// The format in which a certificate begins with a table of nodes, and its clauses name terms by numbers.
const BY_NODES: u8 = 2;

/// Whether clauses are too large for a table. Takes no memory.
fn are_large_in_nodes(clauses: &PlainClauses) -> bool
    ensures { result ≡ is_large_in_nodes clauses.now }
{
    is_large_in_nodes(&clauses.items)
}

/// The format in which a certificate is written where the one is wanted: without a table, where it is too large for one. Takes
/// no memory.
pub fn format_for(wanted: u8, cert: &Cert) -> u8
    ensures format { result ≡ format_for wanted cert.now.clauses }
    ensures fits { result ≡ 2 → FitsInNodes cert.now.clauses }
{
    what_fits_in_nodes();
    if wanted == BY_NODES && are_large_in_nodes(&cert.clauses) {
        SPELLED
    } else {
        wanted
    }
}

/// Puts the first line, and the clauses, each term as it stands.
fn put_spelled_clauses(
    out: &mut Vec<u8>,
    protocol: &Protocol,
    clauses: &PlainClauses,
) -> Result<(), AllocError>
    ensures { OnOk result (Appends (spelled_clauses (protocol_of protocol.now) clauses.now)
        out.old.items out.new.items) }
{
    put(out, b"cert 1\n")?;
    put_clause_lines(out, protocol, &mut Spelled, clauses)
}

/// Puts the first line, the nodes, and the clauses by their numbers. These are made first, since they make the table.
fn put_numbered_clauses(
    out: &mut Vec<u8>,
    protocol: &Protocol,
    clauses: &PlainClauses,
) -> Result<(), AllocError>
    ensures { OnOk result (Appends (numbered_clauses (protocol_of protocol.now) clauses.now)
        out.old.items out.new.items) }
{
    put(out, b"cert 2\n")?;
    let mut table = NodeTable::new(*out.allocator())?;
    let mut lines = Vec::new(*out.allocator());
    put_clause_lines(&mut lines, protocol, &mut table, clauses)?;
    put_nodes(out, protocol, &table)?;
    put(out, &lines)
}

/// Puts the first line, with 2 the nodes, and the clauses.
fn put_clauses(
    out: &mut Vec<u8>,
    protocol: &Protocol,
    clauses: &PlainClauses,
    format: u8,
) -> Result<(), AllocError>
    ensures { OnOk result (Appends (clauses_in format (protocol_of protocol.now) clauses.now)
        out.old.items out.new.items) }
{
    if format == BY_NODES {
        put_numbered_clauses(out, protocol, clauses)
    } else {
        put_spelled_clauses(out, protocol, clauses)
    }
}

/// Puts the text of a certificate in a format at the end, each line ended by LF: with 2 by a table of nodes, and else each term
/// as it stands.
///
/// `Err` is want of memory. Nothing is said of the text then: it is to be let go.
pub fn put_cert(
    out: &mut Vec<u8>,
    protocol: &Protocol,
    cert: &Cert,
    format: u8,
) -> Result<(), AllocError>
    ensures onto { OnOk result (Appends (text_in format (protocol_of protocol.now) cert.now)
        out.old.items out.new.items) }
    ensures text { OnOk result (out.new.items ≡
        out.old.items ++ text_in format (protocol_of protocol.now) cert.now []) }
{
    put_clauses(out, protocol, &cert.clauses, format)?;
    put_rows(out, b'r', &cert.rows)?;
    put_rows(out, b'g', &cert.goals)?;
    put(out, b"end\n")
}

/// The text of a certificate in format 1 or 2, each line ended by LF. One that is too large for a table is not written by
/// one: `format_for` tells.
///
/// `Err` is want of memory.
pub fn write_cert(
    alloc: Global,
    protocol: &Protocol,
    cert: &Cert,
    format: u8,
) -> Result<Vec<u8>, AllocError>
    requires format { (format ≡ 1) ⊎ (format ≡ 2) }
    requires fits { format ≡ 2 → FitsInNodes cert.now.clauses }
    ensures { IfOk result (λ text. text.items ≡
        text_in format (protocol_of protocol.now) cert.now []) }
{
    let mut text = Vec::new(alloc);
    put_cert(&mut text, protocol, cert, format)?;
    Ok(text)
}
