//! Tables that nothing is put into, and such that nobody reads.

ghost use Rattle.std.specs.Prelude.{◌≡◌, map, IfOk};
ghost use Rattle.std.specs.List.{list_any};
ghost use Rattle.pi_tree.specs.Processes.{process_of};
ghost use Rattle.pi_tree.specs.Protocols.{protocol_of};
ghost use Rattle.protocol_text.specs.Spots.{node_of};
ghost use Rattle.protocol_text.specs.TableUses.{fills, reads, is_filled, is_read};

use crate::spelling::declared_word;
use crate::text::Text;
use crate::walk::{Spot, spots};
use pi_tree::{Kind, Process, Protocol};
use std::alloc::{AllocError, Global};

/// What the main process does with a table.
#[derive(Clone, Copy)]
pub struct TableUse {
    /// Whether it puts something into it.
    pub is_filled: bool,
    /// Whether it reads it.
    pub is_read: bool,
}

/// Whether a process begins with an entry being put into the table.
fn fills(node: &Process, table: u32) -> bool
    ensures { result ≡ fills table (process_of node.now) }
{
    match node {
        Process::Insert(number, _, _) => *number == table,
        Process::Nil
        | Process::Output(_, _, _)
        | Process::Input(_, _, _)
        | Process::Par(_, _)
        | Process::Copies(_)
        | Process::New(_, _)
        | Process::Let(_, _, _, _)
        | Process::Event(_, _)
        | Process::Phase(_, _)
        | Process::Get(_, _, _, _, _) => false,
    }
}

/// Whether a process begins with the table being read.
fn reads(node: &Process, table: u32) -> bool
    ensures { result ≡ reads table (process_of node.now) }
{
    match node {
        Process::Get(number, _, _, _, _) => *number == table,
        Process::Nil
        | Process::Output(_, _, _)
        | Process::Input(_, _, _)
        | Process::Par(_, _)
        | Process::Copies(_)
        | Process::New(_, _)
        | Process::Let(_, _, _, _)
        | Process::Event(_, _)
        | Process::Phase(_, _)
        | Process::Insert(_, _, _) => false,
    }
}

/// Whether something is put into the table at one of the points.
fn some_fills(spots: &[Spot<'_>], table: u32) -> bool
    ensures { result ≡ list_any (fills table) (map node_of spots.now) }
{
    'each: for spot in spots {
        if fills(spot.node, table) {
            return true;
        }
    }
    false
}

/// Whether the table is read at one of the points.
fn some_reads(spots: &[Spot<'_>], table: u32) -> bool
    ensures { result ≡ list_any (reads table) (map node_of spots.now) }
{
    'each: for spot in spots {
        if reads(spot.node, table) {
            return true;
        }
    }
    false
}

/// What the main process does with the table of that number, from 1. `Err` comes only for want of memory.
pub fn table_use(alloc: Global, protocol: &Protocol, table: u32) -> Result<TableUse, AllocError>
    ensures filled { IfOk result (λ told.
        told.is_filled ≡ is_filled (protocol_of protocol.now) table) }
    ensures read { IfOk result (λ told. told.is_read ≡ is_read (protocol_of protocol.now) table) }
{
    let spots = spots(alloc, protocol)?;
    Ok(TableUse {
        is_filled: some_fills(&spots, table),
        is_read: some_reads(&spots, table),
    })
}

/// What is told of a table, behind its word; nothing of one that isn't used at all, which is told elsewhere.
fn told_of(told: TableUse) -> Option<&'static [u8]> {
    if told.is_read && !told.is_filled {
        Some(b": nothing is put into it, so each get of it goes to its else branch\n")
    } else if told.is_filled && !told.is_read {
        Some(b": nobody reads it\n")
    } else {
        None
    }
}

/// Puts what is odd about a table.
fn put_table(text: &mut Text, protocol: &Protocol, table: u32, told: TableUse) {
    if let Some(words) = told_of(told) {
        text.put(b"table ");
        text.put(declared_word(&protocol.tables, table));
        text.put(words);
    }
}

/// Puts the tables that the main process reads and doesn't fill, or fills and doesn't read.
pub(crate) fn put_odd_tables(
    text: &mut Text,
    alloc: Global,
    protocol: &Protocol,
) -> Result<(), AllocError> {
    for index in 0..protocol.count(Kind::Table) {
        let table = index.saturating_add(1);
        let told = table_use(alloc, protocol, table)?;
        put_table(text, protocol, table, told);
    }
    Ok(())
}
