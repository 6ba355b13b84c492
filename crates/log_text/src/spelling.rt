//! How points, clauses and terms are spelled.

ghost use Rattle.std.specs.Prelude.{◌<◌, length};
ghost use Rattle.term_tree.specs.Bank.{AreKnown};

use crate::columns::put_numbered;
use crate::entries::MOST_SHOWN;
use cert_form::write_clause;
use clause_form::{PlainClause, PlainDiffs, PlainFact, PlainFacts, Tree, read_term};
use pi_tree::{Kind, Protocol};
use protocol_text::{VariableWords, Wording, put_node};
use std::alloc::{AllocError, Global};
use term_store::SharedBank;
use term_tree::Id;

/// The protocol whose words are written, and the words of its variables.
#[derive(Clone, Copy)]
pub struct Setting<'a> {
    pub alloc: Global,
    pub protocol: &'a Protocol,
    pub variables: &'a VariableWords,
}

/// How many bytes the clause `=> att(t)` has before its term, and behind it.
const BEFORE_TERM: usize = 7;

const BEHIND_TERM: usize = 1;

/// The clause that says that the attacker knows the term.
fn known(alloc: Global, term: Tree) -> PlainClause {
    PlainClause {
        hyps: PlainFacts {
            items: Vec::new(alloc),
        },
        diffs: PlainDiffs {
            items: Vec::new(alloc),
        },
        concl: PlainFact::Att(0, term),
    }
}

/// The line of the clause that says that the attacker knows the term.
fn known_line(setting: Setting<'_>, bank: &SharedBank, term: Id) -> Result<Vec<u8>, AllocError>
    requires { term.index < length bank.now }
{
    let tree = read_term(setting.alloc, bank, term)?;
    let clause = known(setting.alloc, tree);
    let line = write_clause(setting.alloc, setting.protocol, &clause);
    drop(clause);
    line
}

/// Puts a text, and of one with more bytes than that what it begins with.
fn put_start(out: &mut Vec<u8>, text: &[u8], most: usize) -> Result<(), AllocError> {
    let shown = &text[..most.min(text.len())];
    out.extend_from_slice(shown)?;
    if shown.len() < text.len() {
        out.extend_from_slice(b" ..")
    } else {
        Ok(())
    }
}

/// Puts a closed term, as it stands in a clause.
fn put_term(
    out: &mut Vec<u8>,
    setting: Setting<'_>,
    bank: &SharedBank,
    term: Id,
) -> Result<(), AllocError>
    requires { term.index < length bank.now }
{
    let line = known_line(setting, bank, term)?;
    if line.len() < BEFORE_TERM + BEHIND_TERM {
        return Ok(());
    }
    put_start(
        out,
        &line[BEFORE_TERM..line.len() - BEHIND_TERM],
        MOST_SHOWN,
    )
}

/// Puts closed terms, a blank before each.
pub(crate) fn put_terms(
    out: &mut Vec<u8>,
    setting: Setting<'_>,
    bank: &SharedBank,
    terms: &[Id],
) -> Result<(), AllocError>
    requires { AreKnown bank.now terms.now }
{
    'each: for term in terms {
        out.push(b' ')?;
        put_term(out, setting, bank, *term)?;
    }
    Ok(())
}

/// Puts the number of a point, and what stands there.
pub(crate) fn put_point(
    out: &mut Vec<u8>,
    setting: Setting<'_>,
    point: u32,
) -> Result<(), AllocError> {
    put_numbered(out, b"point ", point as usize, b", ")?;
    if point == 0 || point > setting.protocol.count(Kind::Point) {
        return Ok(());
    }
    let words = Wording {
        alloc: setting.alloc,
        protocol: setting.protocol,
        variables: setting.variables,
    };
    put_node(out, words, setting.protocol.node(point))
}
