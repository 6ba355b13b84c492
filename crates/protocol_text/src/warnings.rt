//! The text of warnings.

use crate::dead_tests::{DeadTests, put_dead_tests};
use crate::hidden::put_hidden;
use crate::query_words::put_lookalikes;
use crate::questions::Impossible;
use crate::sources::Source;
use crate::spelling::declared_word;
use crate::tables::put_odd_tables;
use crate::text::Text;
use crate::unused::put_unused;
use pi_tree::Protocol;
use std::alloc::AllocError;

/// Puts the events that no run performs.
fn put_events(text: &mut Text, protocol: &Protocol, events: &[u32]) {
    for event in events {
        text.put(b"event ");
        text.put(declared_word(&protocol.events, *event));
        text.put(b": no run performs it\n");
    }
}

/// Puts the queries that hold since their left sides can't happen.
fn put_queries(text: &mut Text, queries: &[u32]) {
    for query in queries {
        text.put(b"query ");
        text.put_number(u64::from(*query));
        text.put(b": it holds since no run performs the event on its left\n");
    }
}

/// What is found of a protocol by questions of its own.
#[derive(Clone, Copy)]
pub struct Findings<'a> {
    pub impossible: &'a Impossible,
    pub dead: DeadTests<'a>,
}

/// Puts the warnings, one a line.
fn put_lines(
    text: &mut Text,
    protocol: &Protocol,
    source: Source<'_>,
    findings: Findings<'_>,
) -> Result<(), AllocError> {
    let impossible = findings.impossible;
    put_events(text, protocol, &impossible.events);
    put_queries(text, &impossible.queries);
    put_odd_tables(text, source.alloc, protocol)?;
    put_dead_tests(text, source, findings.dead);
    put_lookalikes(text, source)?;
    put_hidden(text, source)?;
    put_unused(text, source)
}

/// Puts all warnings, one a line; `no warning` where there is none. Tells whether there is one.
pub fn put_warnings(
    out: &mut Vec<u8>,
    protocol: &Protocol,
    source: Source<'_>,
    findings: Findings<'_>,
) -> Result<bool, AllocError> {
    let mut text = Text::new(source.alloc);
    put_lines(&mut text, protocol, source, findings)?;
    let is_any = !text.is_empty();
    if !is_any {
        text.put(b"no warning\n");
    }
    text.append_to(out)?;
    Ok(is_any)
}
