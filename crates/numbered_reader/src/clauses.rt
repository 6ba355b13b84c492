//! Clauses, and all that stands before the rows of a certificate.

ghost use Rattle.std.specs.Prelude.{◌≡◌, IfOk};
ghost use Rattle.clause_form.specs.Fit.{clauses_at};
ghost use Rattle.clause_form.specs.Seen.{clause_at, IsClauseIn, AreClausesIn};
ghost use Rattle.term_reader.specs.Naming.{protocol_in};
ghost use Rattle.fact_reader.specs.Gives.{same};
ghost use Rattle.fact_reader.specs.Reads.{Reads};
ghost use Rattle.spec_node_counts.specs.ReadClauses as reading;
ghost use Rattle.node_reader.specs.Tables.{table_of};
ghost use Rattle.numbered_reader.specs.Walks.{walked_of, Walks};

use crate::numbers::NumberedTerms;
use crate::walked::Walked;
use clause_form::{Clause, Clauses, Diffs, Facts};
use fact_reader::{CertError, Cursor, read_clause_by};
use limits::MOST_CLAUSES;
use node_reader::{Table, read_nodes};
use shared_cert::SharedClauses;
use term_reader::Names;

/// The clause that stands there.
fn clause(
    names: &Names<'_>,
    table: &Table,
    cursor: &mut Cursor<'_>,
    walked: &mut Walked,
) -> Result<Clause, CertError>
    ensures read { Walks (clause_at (table_of table.now).terms)
        (reading.read_clause (protocol_in names.now) (table_of table.now))
        walked.old walked.new cursor.old cursor.new result }
    ensures same { cursor.new.bytes.now ≡ cursor.old.bytes.now }
    ensures known { IfOk result (IsClauseIn (table_of table.now).terms) }
{
    let read = read_clause_by(names, &NumberedTerms { table }, cursor, walked)?;
    Ok(Clause {
        hyps: Facts { items: read.hyps },
        diffs: Diffs { items: read.diffs },
        concl: read.concl,
    })
}

/// `c `, a clause and the end of its line.
fn clause_line(
    names: &Names<'_>,
    table: &Table,
    cursor: &mut Cursor<'_>,
    walked: &mut Walked,
) -> Result<Clause, CertError>
    ensures read { Walks (clause_at (table_of table.now).terms)
        (reading.clause_line (protocol_in names.now) (table_of table.now))
        walked.old walked.new cursor.old cursor.new result }
    ensures same { cursor.new.bytes.now ≡ cursor.old.bytes.now }
    ensures known { IfOk result (IsClauseIn (table_of table.now).terms) }
{
    cursor.pass(b"c ")?;
    *walked = walked.at_clause();
    let found = clause(names, table, cursor, walked)?;
    match cursor.pass(b"\n") {
        Ok(_) => Ok(found),
        Err(error) => {
            drop(found);
            Err(error)
        }
    }
}

/// All clauses that stand there.
#[tactic(auto, using(crate::proofs::Loops::going))]
fn clauses(
    names: &Names<'_>,
    table: &Table,
    cursor: &mut Cursor<'_>,
    walked: &mut Walked,
) -> Result<Clauses, CertError>
    ensures read { Walks (clauses_at (table_of table.now).terms)
        (reading.read_clauses (protocol_in names.now) (table_of table.now))
        walked.old walked.new cursor.old cursor.new result }
    ensures same { cursor.new.bytes.now ≡ cursor.old.bytes.now }
    ensures known { IfOk result (AreClausesIn (table_of table.now).terms) }
{
    let mut items = Vec::new(names.alloc);
    for round in 0..MOST_CLAUSES {
        if cursor.front() != b'c' {
            return Ok(Clauses { items });
        }
        let next = clause_line(names, table, cursor, walked)?;
        items.push(next)?;
    }
    if cursor.front() == b'c' {
        return Err(CertError::Count(cursor.at));
    }
    Ok(Clauses { items })
}

/// Whether rows or the last line begin with the byte.
fn begins_rows(byte: u8) -> bool
    ensures { result ≡ reading.begins_rows byte }
{
    byte == b'r' || byte == b'g' || byte == b'e'
}

/// Whether some node was never reached.
fn is_unreached(table: &Table, walked: Walked) -> bool
    ensures { result ≡ reading.is_unreached (table_of table.now) (walked_of walked) }
{
    walked.reached < table.len()
}

/// The clauses that stand there, by this table, each node of which is reached.
fn reached_clauses(
    names: &Names<'_>,
    table: &Table,
    cursor: &mut Cursor<'_>,
) -> Result<Clauses, CertError>
    ensures read { let T = table_of table.now in Reads (clauses_at T.terms)
        (reading.reached_clauses (protocol_in names.now) T) cursor.old cursor.new result }
    ensures same { cursor.new.bytes.now ≡ cursor.old.bytes.now }
    ensures known { IfOk result (AreClausesIn (table_of table.now).terms) }
{
    let mut walked = Walked::nothing();
    let found = clauses(names, table, cursor, &mut walked)?;
    if begins_rows(cursor.front()) && is_unreached(table, walked) {
        return Err(CertError::NodeOrder(cursor.at));
    }
    Ok(found)
}

/// The clauses of a certificate by a table that stands there: its first line, its nodes and its clauses, up to its rows; or the
/// first fault.
pub fn read_numbered(names: &Names<'_>, cursor: &mut Cursor<'_>) -> Result<SharedClauses, CertError>
    ensures read { Reads same (reading.clauses_read (protocol_in names.now))
        cursor.old cursor.new result }
    ensures same { cursor.new.bytes.now ≡ cursor.old.bytes.now }
{
    cursor.pass(b"cert 2\n")?;
    let table = read_nodes(names, cursor)?;
    let clauses = reached_clauses(names, &table, cursor)?;
    Ok(SharedClauses::over(table.bank, clauses))
}
