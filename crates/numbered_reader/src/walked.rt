//! How far the walk through the clauses has come, and the terms of numbers in clauses.

ghost use Rattle.std.specs.Prelude.{◌≡◌, ◌<◌, ◌≤◌, length, IfOk};
ghost use Rattle.term_tree.specs.Bank.{tree_at};
ghost use Rattle.spec_node_counts.specs.Counts as reading;
ghost use Rattle.node_reader.specs.Tables.{table_of};
ghost use Rattle.numbered_reader.specs.Walks.{walked_of, Walks};

use fact_reader::{CertError, Cursor};
use limits::{MOST_REPORT_BYTES, MOST_SYMBOLS};
use node_reader::Table;
use term_tree::{Bank, Id};

/// The most symbols of all clauses of a certificate that is written by a table: as many as a report has bytes at most.
const MOST_CERTIFICATE_SYMBOLS: u64 = MOST_REPORT_BYTES as u64;

/// So many nodes are complete; and the symbols of the clause, and of all clauses. Past their limits no more than one is counted.
#[derive(Clone, Copy)]
pub struct Walked {
    pub reached: usize,
    pub clause: u64,
    pub all: u64,
}

impl Walked {
    ghost use Rattle.std.specs.Prelude.{◌≡◌};
    ghost use Rattle.spec_node_counts.specs.Counts as reading;
    ghost use Rattle.numbered_reader.specs.Walks.{walked_of};

    /// Nothing so far.
    pub fn nothing() -> Walked
        ensures { walked_of result ≡ reading.nothing_counted }
    {
        Walked {
            reached: 0,
            clause: 0,
            all: 0,
        }
    }

    /// So many symbols more.
    pub fn with_symbols(self, symbols: u64) -> Walked
        ensures { walked_of result ≡ reading.with_symbols symbols (walked_of self) }
    {
        let clause = self.clause.saturating_add(symbols);
        let all = self.all.saturating_add(symbols);
        Walked {
            reached: self.reached,
            clause: clause.min(MOST_SYMBOLS + 1),
            all: all.min(MOST_CERTIFICATE_SYMBOLS + 1),
        }
    }

    /// A clause begins.
    pub fn at_clause(self) -> Walked
        ensures { walked_of result ≡ reading.at_clause (walked_of self) }
    {
        Walked {
            reached: self.reached,
            clause: 0,
            all: self.all,
        }
    }

    /// Behind the node of that number, whose term has so many symbols.
    fn through(self, number: usize, symbols: u64) -> Walked
        ensures { walked_of result ≡ reading.counted_through number symbols (walked_of self) }
    {
        let reached = if number <= self.reached {
            self.reached
        } else {
            number
        };
        let there = Walked {
            reached,
            clause: self.clause,
            all: self.all,
        };
        there.with_symbols(symbols)
    }

    /// Whether there are too many symbols.
    fn is_large(self) -> bool
        ensures { result ≡ reading.is_large (walked_of self) }
    {
        self.clause > MOST_SYMBOLS || self.all > MOST_CERTIFICATE_SYMBOLS
    }
}

/// Whether the number is that of a node, and the walk through that completes the nodes behind those that are complete, up to it,
/// or none.
fn is_next(table: &Table, walked: Walked, number: usize) -> bool
    ensures { result ≡ reading.is_next (table_of table.now) (walked_of walked) number }
{
    number != 0
        && number <= table.len()
        && (number <= walked.reached || table.start(number) <= walked.reached)
}

/// The term of the number that stands there: outside of constraints no bound variable stands in it.
#[tactic(auto, using(crate::proofs::Symbols::symbols))]
pub fn tree(
    table: &Table,
    cursor: &mut Cursor<'_>,
    walked: &mut Walked,
    binds: bool,
) -> Result<Id, CertError>
    ensures read { let T = table_of table.now in Walks (tree_at T.terms) (reading.read_tree binds T)
        walked.old walked.new cursor.old cursor.new result }
    ensures same { cursor.new.bytes.now ≡ cursor.old.bytes.now }
    ensures known { IfOk result (λ id. id.index < length (table_of table.now).terms) }
{
    let from = cursor.at;
    let number = cursor.number()? as usize;
    if !binds && table.is_bound(number) {
        return Err(CertError::Symbol(from));
    }
    if !is_next(table, *walked, number) {
        return Err(CertError::NodeOrder(from));
    }
    let id = Id { index: number - 1 };
    let next = walked.through(number, table.bank.size(id));
    if next.is_large() {
        return Err(CertError::NodeLarge(from));
    }
    *walked = next;
    Ok(id)
}
