//! What is written in a chart.

use crate::chart::{Chart, Head, Origin, Row, Shape};
use crate::texts::Text;
use std::alloc::Global;

/// Puts who a thread is: its macro, and where it comes from.
fn put_head(out: &mut Text, head: &Head) {
    let is_named = !head.role.is_empty();
    out.put(&head.role);
    match head.origin {
        Origin::Main if is_named => {}
        Origin::Main => out.put(b"main"),
        Origin::Beside(point) => {
            out.put_gap(is_named);
            out.put_number(b"from ", u64::from(point));
        }
        Origin::Session(point) => {
            out.put_gap(is_named);
            out.put_number(b"!", u64::from(point));
        }
    }
}

/// The heading of a thread, or of the attacker.
pub(crate) fn heading(alloc: Global, chart: &Chart, thread: u32) -> Text {
    let mut text = Text::new(alloc);
    match thread.checked_sub(1) {
        None => text.put(b"attacker"),
        Some(index) => {
            text.put_number(b"", u64::from(thread));
            text.put(b": ");
            if let Some(head) = chart.threads.get(index as usize) {
                put_head(&mut text, head);
            }
        }
    }
    text
}

/// What is written in a row.
pub(crate) fn label(alloc: Global, chart: &Chart, row: &Row) -> Text {
    match row.shape {
        Shape::Begin(thread) => heading(alloc, chart, thread),
        Shape::Violation(query) => {
            let mut text = Text::new(alloc);
            text.put_number(b"query ", query);
            text.put(b" is violated");
            text
        }
        Shape::Arrow(_, _) | Shape::Note(_) | Shape::Bar => {
            let mut text = Text::new(alloc);
            text.put(&row.text);
            text
        }
    }
}
