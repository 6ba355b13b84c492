//! The numbers of a node.

ghost use Rattle.std.specs.Prelude.{◌≡◌, ◌++◌, ◌∷◌, [], ℕ, suc, List, length, map, IfOk};
ghost use Rattle.spec_node_tables.specs.Order.{IsNumberOf};
ghost use Rattle.spec_node_reading.specs.Loops.{lines_through};
ghost use Rattle.spec_node_reading.specs.ReadNodes as reading;
ghost use Rattle.fact_reader.specs.Gives.{same};
ghost use Rattle.fact_reader.specs.Reads.{Reads};
ghost use Rattle.spec_node_counts.specs.Nodes.{one_number};
ghost use Rattle.node_lines.specs.Seen.{numbers_of, id_of, HasNumbersOf};

use clause_form::Ids;
use fact_reader::{CertError, Cursor};
use std::alloc::{AllocError, Global};
use term_tree::Id;

/// Numbers in a row.
#[derive(Drop)]
pub struct Numbers {
    pub items: Vec<u32>,
}

/// The number of one of so many nodes.
fn lower_number(cursor: &mut Cursor<'_>, nodes: usize) -> Result<u32, CertError>
    ensures read { Reads same (reading.lower_number (suc nodes))
        cursor.old cursor.new result }
    ensures same { cursor.new.bytes.now ≡ cursor.old.bytes.now }
    ensures within { IfOk result (IsNumberOf nodes) }
{
    let from = cursor.at;
    let number = cursor.number()?;
    if number == 0 || number as usize > nodes {
        return Err(CertError::NodeOrder(from));
    }
    Ok(number)
}

/// A space, and such a number.
fn spaced_number(cursor: &mut Cursor<'_>, nodes: usize) -> Result<u32, CertError>
    ensures read { (before : List ℕ) → Reads (λ n. before ++ n ∷ [])
        (reading.spaced_number (suc nodes) before) cursor.old cursor.new result }
    ensures same { cursor.new.bytes.now ≡ cursor.old.bytes.now }
    ensures within { IfOk result (IsNumberOf nodes) }
{
    cursor.pass(b" ")?;
    lower_number(cursor, nodes)
}

/// Such numbers, a space before each, as many as stand there.
#[tactic(auto, using(crate::proofs::Loops::going))]
fn some_numbers(alloc: Global, cursor: &mut Cursor<'_>, nodes: usize) -> Result<Numbers, CertError>
    ensures read { Reads numbers_of (λ bytes at. lines_through 32
        (reading.spaced_number (suc nodes)) (length bytes) [] bytes at)
        cursor.old cursor.new result }
    ensures same { cursor.new.bytes.now ≡ cursor.old.bytes.now }
    ensures within { IfOk result (HasNumbersOf nodes) }
{
    let mut items = Vec::new(alloc);
    for round in cursor.at..cursor.bytes.len() {
        if cursor.front() != b' ' {
            return Ok(Numbers { items });
        }
        let next = spaced_number(cursor, nodes)?;
        items.push(next)?;
    }
    if cursor.front() == b' ' {
        return Err(CertError::Count(cursor.at));
    }
    Ok(Numbers { items })
}

/// The same, before another byte.
#[tactic(auto, using(crate::proofs::Ends::ends))]
pub fn spaced_numbers(
    alloc: Global,
    cursor: &mut Cursor<'_>,
    nodes: usize,
) -> Result<Numbers, CertError>
    ensures read { Reads numbers_of (reading.read_spaced (suc nodes))
        cursor.old cursor.new result }
    ensures same { cursor.new.bytes.now ≡ cursor.old.bytes.now }
    ensures within { IfOk result (HasNumbersOf nodes) }
{
    let found = some_numbers(alloc, cursor, nodes)?;
    if cursor.is_at_end() {
        return Err(CertError::Syntax(cursor.at));
    }
    Ok(found)
}

/// No numbers.
pub fn no_numbers(alloc: Global) -> Numbers
    ensures { numbers_of result ≡ [] }
{
    Numbers {
        items: Vec::new(alloc),
    }
}

/// One such number.
pub fn one_number(
    alloc: Global,
    cursor: &mut Cursor<'_>,
    nodes: usize,
) -> Result<Numbers, CertError>
    ensures read { Reads numbers_of (one_number (suc nodes)) cursor.old cursor.new result }
    ensures same { cursor.new.bytes.now ≡ cursor.old.bytes.now }
    ensures within { IfOk result (HasNumbersOf nodes) }
{
    let number = lower_number(cursor, nodes)?;
    let mut items = Vec::new(alloc);
    items.push(number)?;
    Ok(Numbers { items })
}

/// The ids of these numbers: the place of each is its number less one.
#[tactic(auto, using(crate::proofs::NumberIds::ids))]
pub fn ids_of(alloc: Global, numbers: &[u32]) -> Result<Ids, AllocError>
    ensures { IfOk result (λ ids. ids ≡ map id_of numbers.now) }
{
    let mut items = Vec::new(alloc);
    for number in numbers {
        let index = (*number as usize).saturating_sub(1);
        items.push(Id { index })?;
    }
    Ok(Ids { items })
}
