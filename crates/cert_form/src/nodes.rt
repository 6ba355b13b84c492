//! The lines of a table of nodes.

ghost use Rattle.std.specs.Prelude.{◌<◌, length, map, OnOk};
ghost use Rattle.pi_tree.specs.Protocols.{protocol_of};
ghost use Rattle.term_tree.specs.Bank.{symbol_of, tree_at, AreKnown};
ghost use Rattle.spec_certificate_text.specs.Text.{numbers_text};
ghost use Rattle.spec_node_tables.specs.Table.{number_in};
ghost use Rattle.spec_node_tables.specs.Nodes.{node_of};
ghost use Rattle.spec_node_tables.specs.Text.{symbol_head, head_text, node_text, node_lines};
ghost use Rattle.cert_form.specs.Appends.{Appends};

use crate::parts::{put, put_number, put_variable};
use crate::words::{declared_word, word_at};
use node_table::NodeTable;
use pi_tree::Protocol;
use std::alloc::AllocError;
use term_tree::{Id, Node, Sym};

/// Puts what a node has before the numbers of its arguments.
fn put_node_head(out: &mut Vec<u8>, protocol: &Protocol, symbol: Sym) -> Result<(), AllocError>
    ensures { OnOk result (Appends (head_text (symbol_head (protocol_of protocol.now)
        (symbol_of symbol))) out.old.items out.new.items) }
{
    match symbol {
        Sym::Ctor(number) | Sym::Data(number) => put(out, declared_word(&protocol.ctors, number)),
        Sym::Tuple(_) => put(out, b"()"),
        Sym::Free(number) => put(out, declared_word(&protocol.frees, number)),
        Sym::Point(point) => {
            put(out, word_at(protocol, point))?;
            put(out, b"@")?;
            put_number(out, point as u64)
        }
        Sym::Attacker => put(out, b"@"),
    }
}

/// Puts the numbers of terms of the table, a space before each.
fn put_arguments(out: &mut Vec<u8>, table: &NodeTable, ids: &[Id]) -> Result<(), AllocError>
    requires { AreKnown table.now ids.now }
    ensures { OnOk result (Appends (numbers_text (map (λ id. number_in table.now
        (tree_at table.now id)) ids.now)) out.old.items out.new.items) }
{
    'each: for id in ids {
        put(out, b" ")?;
        put_number(out, table.number_of(*id))?;
    }
    Ok(())
}

/// Puts the text of a node of the table.
fn put_node(
    out: &mut Vec<u8>,
    protocol: &Protocol,
    table: &NodeTable,
    id: Id,
) -> Result<(), AllocError>
    requires { id.index < length table.now }
    ensures { OnOk result (Appends (node_text (protocol_of protocol.now)
        (node_of table.now (tree_at table.now id))) out.old.items out.new.items) }
{
    match table.node(id) {
        Node::Var(number) => put_variable(out, number),
        Node::App(symbol, arguments) => {
            put_node_head(out, protocol, symbol)?;
            put_arguments(out, table, arguments)
        }
    }
}

/// Puts a line for each node of the table.
pub fn put_nodes(
    out: &mut Vec<u8>,
    protocol: &Protocol,
    table: &NodeTable,
) -> Result<(), AllocError>
    ensures { OnOk result (Appends (node_lines (protocol_of protocol.now)
        (map (node_of table.now) table.now)) out.old.items out.new.items) }
{
    'each: for index in 0..table.len() {
        put(out, b"n ")?;
        put_node(out, protocol, table, Id { index })?;
        put(out, b"\n")?;
    }
    Ok(())
}
