//! Nodes.

ghost use Rattle.std.specs.Prelude.{◌≡◌, ◌<◌, ℕ, suc, IfOk, IfSome};
ghost use Rattle.spec_certificate_text.specs.Outcomes.{front};
ghost use Rattle.term_tree.specs.Bank.{symbol_of};
ghost use Rattle.term_reader.specs.Naming.{protocol_in};
ghost use Rattle.fact_reader.specs.Reads.{left_of, Reads};
ghost use Rattle.spec_node_reading.specs.ReadNodes as reading;
ghost use Rattle.spec_node_counts.specs.Nodes.{read_attackers, read_bound_node, read_headed};
ghost use Rattle.node_lines.specs.Seen.{head_of, body_of, HasNumbersOf, HasNodesBefore, NodeIs};

use crate::heads::{Head, read_head};
use crate::numbers::{Numbers, no_numbers, one_number, spaced_numbers};
use fact_reader::{CertError, Cursor};
use limits::MOST_ARGUMENTS;
use term_reader::{FIRST_BOUND, Named, Names, with_parts};
use term_tree::Sym;

/// What a node has, and its numbers.
#[derive(Drop)]
pub struct Body {
    pub head: Head,
    pub numbers: Numbers,
}

/// A node of a table: a variable, or a symbol over the numbers of its arguments.
#[derive(Drop)]
pub enum TableNode {
    Variable(u32),
    Over(Sym, Numbers),
}

/// A name that the attacker makes.
fn attackers(names: &Names<'_>, cursor: &mut Cursor<'_>, nodes: usize) -> Result<Body, CertError>
    ensures read { Reads body_of (read_attackers (suc nodes)) cursor.old cursor.new result }
    ensures same { cursor.new.bytes.now ≡ cursor.old.bytes.now }
    ensures within { IfOk result (λ body. HasNumbersOf nodes body.numbers) }
{
    cursor.pass(b"@ ")?;
    let numbers = one_number(names.alloc, cursor, nodes)?;
    let named = Named {
        symbol: Sym::Attacker,
        arity: 1,
    };
    Ok(Body {
        head: Head::Names(named),
        numbers,
    })
}

/// The bound variable of a number that stands there.
#[tactic(auto, using(crate::proofs::BoundNodes::short))]
fn bound_number(cursor: &mut Cursor<'_>) -> Result<Head, CertError>
    ensures read { Reads head_of reading.read_bound cursor.old cursor.new result }
    ensures same { cursor.new.bytes.now ≡ cursor.old.bytes.now }
{
    let number = cursor.number()?;
    Ok(Head::Variable(FIRST_BOUND + number))
}

/// A bound variable.
#[tactic(auto, using(fact_reader::proofs::Places::drop_next))]
fn bound(names: &Names<'_>, cursor: &mut Cursor<'_>) -> Result<Body, CertError>
    requires { 0 < front (left_of cursor.old) }
    ensures read { Reads body_of read_bound_node cursor.old cursor.new result }
    ensures same { cursor.new.bytes.now ≡ cursor.old.bytes.now }
    ensures within { (nodes : ℕ) → IfOk result (λ body. HasNumbersOf nodes body.numbers) }
{
    cursor.at += 1;
    let head = bound_number(cursor)?;
    let numbers = no_numbers(names.alloc);
    Ok(Body { head, numbers })
}

/// A head, and numbers behind it.
fn headed(names: &Names<'_>, cursor: &mut Cursor<'_>, nodes: usize) -> Result<Body, CertError>
    ensures read { Reads body_of (read_headed (protocol_in names.now) (suc nodes))
        cursor.old cursor.new result }
    ensures same { cursor.new.bytes.now ≡ cursor.old.bytes.now }
    ensures within { IfOk result (λ body. HasNumbersOf nodes body.numbers) }
{
    let head = read_head(names, cursor)?;
    let numbers = spaced_numbers(names.alloc, cursor, nodes)?;
    Ok(Body { head, numbers })
}

/// What stands behind `n `, where so many nodes stand before.
pub fn read_body(
    names: &Names<'_>,
    cursor: &mut Cursor<'_>,
    nodes: usize,
) -> Result<Body, CertError>
    ensures read { Reads body_of (reading.read_body (protocol_in names.now) (suc nodes))
        cursor.old cursor.new result }
    ensures same { cursor.new.bytes.now ≡ cursor.old.bytes.now }
    ensures within { IfOk result (λ body. HasNumbersOf nodes body.numbers) }
{
    if cursor.front() == b'@' {
        return attackers(names, cursor, nodes);
    }
    if cursor.front() == b'?' {
        return bound(names, cursor);
    }
    headed(names, cursor, nodes)
}

/// Whether a symbol may have so many numbers: a tuple two at least.
fn may_take(symbol: Sym, arity: u32, numbers: usize) -> bool
    ensures { result ≡ reading.may_take (symbol_of symbol) arity numbers }
{
    match symbol {
        Sym::Tuple(_) => 2 <= numbers && numbers <= MOST_ARGUMENTS,
        _ => numbers == arity as usize,
    }
}

/// The node of what was read, if it has as many numbers as it takes.
#[tactic(auto, using(crate::proofs::Arities::arities))]
pub fn node(body: Body) -> Option<TableNode>
    ensures is { NodeIs (body_of body) result }
    ensures within { (nodes : ℕ) → HasNumbersOf nodes body.numbers →
        IfSome result (HasNodesBefore nodes) }
{
    match body.head {
        Head::Variable(number) => Some(TableNode::Variable(number)),
        Head::Names(named) => {
            let parts = body.numbers.items.len();
            if !may_take(named.symbol, named.arity, parts) {
                return None;
            }
            let symbol = with_parts(named.symbol, parts);
            Some(TableNode::Over(symbol, body.numbers))
        }
    }
}
