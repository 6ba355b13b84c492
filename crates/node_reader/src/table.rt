//! The table of nodes.

ghost use Rattle.std.specs.Prelude.{◌≡◌, length, IfOk, OnOk};
ghost use Rattle.spec_node_tables.specs.Nodes.{term_of};
ghost use Rattle.term_tree.specs.Bank.{Names as NamesTree};
ghost use Rattle.term_store.specs.SharedBank.{Finds as FindsTree, AddsNew};
ghost use Rattle.term_reader.specs.Naming.{protocol_in};
ghost use Rattle.fact_reader.specs.Reads.{Reads};
ghost use Rattle.spec_node_starts.specs.Starts as walks;
ghost use Rattle.spec_node_counts.specs.Nodes as reading;
ghost use Rattle.spec_node_tables.specs.Text.{node_numbers};
ghost use Rattle.node_lines.specs.Seen.{node_of, HasNodesBefore};
ghost use Rattle.node_reader.specs.Tables.{table_of};

use fact_reader::{CertError, Cursor};
use limits::MOST_SYMBOLS;
use node_lines::{
    Body, TableNode, bound_at, ids_of, is_bound_node, node, read_body, start_at, start_of,
};
use std::alloc::{AllocError, Global};
use term_reader::Names;
use term_store::SharedBank;
use term_tree::{Bank, Id};

/// The nodes that were read: the term of each, that of number n at place n - 1 of the bank, from where a walk through it may begin,
/// and whether a bound variable stands in its term.
#[derive(Drop)]
pub struct Table {
    pub bank: SharedBank,
    pub starts: Vec<u32>,
    pub bounds: Vec<bool>,
}

/// No nodes.
fn no_nodes(alloc: Global) -> Result<Table, AllocError>
    ensures { IfOk result (λ table. table_of table ≡ reading.no_nodes) }
{
    let bank = SharedBank::new(alloc)?;
    let starts = Vec::new(alloc);
    let bounds = Vec::new(alloc);
    Ok(Table {
        bank,
        starts,
        bounds,
    })
}

/// The id of the node's term.
#[tactic(auto, using(crate::proofs::Terms::terms))]
fn put(alloc: Global, bank: &mut SharedBank, node: &TableNode) -> Result<Id, AllocError>
    requires { HasNodesBefore (length bank.old) node.now }
    ensures names { IfOk result (λ id.
        NamesTree bank.new id (term_of bank.old (node_of node.now))) }
    ensures found { IfOk result
        (FindsTree bank.old bank.new (term_of bank.old (node_of node.now))) }
    ensures added { OnOk result
        (AddsNew bank.old bank.new (term_of bank.old (node_of node.now))) }
{
    match node {
        TableNode::Variable(number) => bank.var(*number),
        TableNode::Over(symbol, numbers) => {
            let ids = ids_of(alloc, &numbers.items)?;
            bank.app(*symbol, &ids.items)
        }
    }
}

/// The start of the node, behind so many.
fn start_of_node(starts: &[u32], nodes: usize, node: &TableNode) -> usize
    ensures { result ≡ walks.start_of starts.now nodes (node_numbers (node_of node.now)) }
{
    match node {
        TableNode::Variable(_) => start_of(starts, nodes, &[]),
        TableNode::Over(_, numbers) => start_of(starts, nodes, &numbers.items),
    }
}

/// A start in 32 bits. `Err` is want of memory: one that doesn't fit stands behind more nodes than any memory has.
fn in_32_bits(start: usize) -> Result<u32, AllocError>
    ensures { IfOk result (λ small. small ≡ start) }
{
    match u32::try_from(start) {
        Ok(small) => Ok(small),
        Err(_) => Err(AllocError),
    }
}

impl Table {
    ghost use Rattle.std.specs.Prelude.{◌≡◌, ℕ, List, length};
    ghost use Rattle.fact_reader.specs.Reads.{Finds};
    ghost use Rattle.spec_node_starts.specs.Starts as walks;
    ghost use Rattle.spec_node_counts.specs.Nodes as reading;
    ghost use Rattle.node_lines.specs.Seen.{body_of, node_of, HasNumbersOf, HasNodesBefore};
    ghost use Rattle.node_reader.specs.Tables.{table_of};

    /// How many nodes there are.
    pub fn len(&self) -> usize
        ensures { result ≡ length (table_of self.now).terms }
    {
        self.bank.mark().len
    }

    /// The start of the node of that number; 0 where there is none.
    pub fn start(&self, number: usize) -> usize
        ensures { result ≡ walks.start_at (table_of self.now).starts number }
    {
        start_at(&self.starts, number)
    }

    /// Whether a bound variable stands in the term of the node of that number.
    pub fn is_bound(&self, number: usize) -> bool
        ensures { result ≡ reading.bound_at (table_of self.now).bounds number }
    {
        bound_at(&self.bounds, number)
    }

    /// Adds a node that was read at the place: it stands nowhere before, and is within the limit of size.
    #[tactic(auto, using(crate::proofs::Terms::adding))]
    fn add(&mut self, alloc: Global, from: usize, node: &TableNode) -> Result<(), CertError>
        requires { HasNodesBefore (length (table_of self.old).terms) node.now }
        ensures { (place : ℕ) (rest : List ℕ) → Finds (λ _. table_of self.new) result place rest
            (reading.added (table_of self.old) from (node_of node.now) place rest) }
    {
        let nodes = self.len();
        let start = start_of_node(&self.starts, nodes, node);
        let small = in_32_bits(start)?;
        let is_bound = is_bound_node(&self.bounds, node);
        let id = put(alloc, &mut self.bank, node)?;
        if self.len() == nodes {
            return Err(CertError::NodeOrder(from));
        }
        if self.bank.size(id) > MOST_SYMBOLS {
            return Err(CertError::NodeLarge(from));
        }
        self.starts.push(small)?;
        self.bounds.push(is_bound)?;
        Ok(())
    }

    /// Adds the node of what was read at the place, if it has as many numbers as it takes.
    fn judge(&mut self, alloc: Global, from: usize, read: Body) -> Result<(), CertError>
        requires { HasNumbersOf (length (table_of self.old).terms) read.numbers }
        ensures { (place : ℕ) (rest : List ℕ) → Finds (λ _. table_of self.new) result place rest
            (reading.judged (table_of self.old) from (body_of read) place rest) }
    {
        match node(read) {
            None => Err(CertError::Arity(from)),
            Some(found) => self.add(alloc, from, &found),
        }
    }
}

/// `n `, a node and the end of its line: adds it.
fn node_line(names: &Names<'_>, cursor: &mut Cursor<'_>, table: &mut Table) -> Result<(), CertError>
    ensures read { Reads (λ _. table_of table.new)
        (reading.node_line (protocol_in names.now) (table_of table.old))
        cursor.old cursor.new result }
    ensures same { cursor.new.bytes.now ≡ cursor.old.bytes.now }
{
    cursor.pass(b"n ")?;
    let from = cursor.at;
    let read = read_body(names, cursor, table.len())?;
    table.judge(names.alloc, from, read)?;
    cursor.pass(b"\n")
}

/// All nodes that stand there.
#[tactic(auto, using(node_lines::proofs::Loops::going))]
pub fn read_nodes(names: &Names<'_>, cursor: &mut Cursor<'_>) -> Result<Table, CertError>
    ensures read { Reads table_of (reading.table_read (protocol_in names.now))
        cursor.old cursor.new result }
    ensures same { cursor.new.bytes.now ≡ cursor.old.bytes.now }
{
    let mut table = no_nodes(names.alloc)?;
    for round in cursor.at..cursor.bytes.len() {
        if cursor.front() != b'n' {
            return Ok(table);
        }
        node_line(names, cursor, &mut table)?;
    }
    if cursor.front() == b'n' {
        return Err(CertError::Count(cursor.at));
    }
    Ok(table)
}
