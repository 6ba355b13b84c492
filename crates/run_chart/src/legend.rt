//! How values are spelled, and abbreviated.

use crate::drawing::Setting;
use crate::texts::Text;
use destructor_rules::is_same;
use pi_tree::{Protocol, Value, Values};
use protocol_text::{declared_word, point_word};
use std::alloc::{AllocError, Global};

/// How many bytes of a message are shown in a chart; a longer one is abbreviated.
const MOST_SHOWN: usize = 20;

/// How many bytes of a message are shown in the legend.
const MOST_EXPLAINED: usize = 1_000;

/// What abbreviations stand for: `M1` for the first message, and so on.
#[derive(Drop)]
pub struct Legend {
    values: Vec<Value>,
    /// How the messages are spelled, each by the abbreviations of its parts.
    pub texts: Vec<Vec<u8>>,
}

impl Legend {
    /// The empty legend.
    pub(crate) fn new(alloc: Global) -> Legend {
        Legend {
            values: Vec::new(alloc),
            texts: Vec::new(alloc),
        }
    }

    /// The number of a message, from 1, where it is explained.
    fn number(&self, value: &Value) -> Option<usize> {
        for (index, known) in self.values.iter().enumerate() {
            if is_same(known, value) {
                return Some(index + 1);
            }
        }
        None
    }

    /// Explains one more message; its number.
    fn explain(&mut self, alloc: Global, value: &Value) -> Result<usize, AllocError> {
        self.values.push(value.copy(alloc)?)?;
        Ok(self.values.len())
    }

    /// How a message is spelled by the abbreviations of its parts.
    fn spelled(
        &self,
        alloc: Global,
        protocol: &Protocol,
        value: &Value,
    ) -> Result<Vec<u8>, AllocError> {
        let mut text = Text::new(alloc);
        put_value(&mut text, self, protocol, value);
        text.shorten(MOST_EXPLAINED);
        text.finish()
    }

    /// Spells the messages, which are all told by now.
    pub(crate) fn spell(&mut self, alloc: Global, protocol: &Protocol) -> Result<(), AllocError> {
        let mut texts = Vec::new(alloc);
        for value in &self.values {
            texts.push(self.spelled(alloc, protocol, value)?)?;
        }
        self.texts = texts;
        Ok(())
    }
}

/// Puts a value: a name that a restriction made as its word, `#` and its number in the run, one of the attacker's as `#` and its
/// number, and what the legend explains by its abbreviation.
#[cycle(spell_value)]
fn put_value(out: &mut Text, legend: &Legend, protocol: &Protocol, value: &Value) {
    match value {
        Value::Free(number) => out.put(declared_word(&protocol.frees, *number)),
        Value::Made(point, number) => {
            out.put(point_word(protocol, *point));
            out.put_number(b"#", *number);
        }
        Value::Fresh(number) => out.put_number(b"#", *number),
        Value::App(constructor, arguments) => {
            out.put(declared_word(&protocol.ctors, *constructor));
            if !arguments.items.is_empty() {
                put_values(out, legend, protocol, arguments);
            }
        }
        Value::Tuple(parts) => put_values(out, legend, protocol, parts),
    }
}

/// Puts a part of a value, where the text isn't as long by now as it may be.
#[cycle(spell_value)]
fn put_part(out: &mut Text, legend: &Legend, protocol: &Protocol, value: &Value) {
    if out.len() > MOST_EXPLAINED {
        return;
    }
    match legend.number(value) {
        Some(number) => out.put_number(b"M", number as u64),
        None => put_value(out, legend, protocol, value),
    }
}

/// Puts values in parentheses, a comma between each two.
#[cycle(spell_value)]
fn put_values(out: &mut Text, legend: &Legend, protocol: &Protocol, values: &Values) {
    let mut mark = b'(';
    for value in &values.items {
        out.push(mark);
        mark = b',';
        put_part(out, legend, protocol, value);
    }
    out.push(b')');
}

/// Puts the abbreviation of a value, which isn't explained by now.
fn put_new(out: &mut Text, legend: &mut Legend, alloc: Global, value: &Value) {
    match legend.explain(alloc, value) {
        Ok(number) => out.put_number(b"M", number as u64),
        Err(_) => out.note_lack(),
    }
}

/// Puts a value, or where it is long an abbreviation that the legend explains.
pub(crate) fn put_short(out: &mut Text, legend: &mut Legend, setting: Setting<'_>, value: &Value) {
    let mut text = Text::new(setting.alloc);
    put_part(&mut text, legend, setting.protocol, value);
    if text.len() > MOST_SHOWN {
        put_new(out, legend, setting.alloc, value);
    } else {
        out.put_text(&text);
    }
}

/// Puts values in parentheses, long ones abbreviated; nothing where there are none.
pub(crate) fn put_arguments(
    out: &mut Text,
    legend: &mut Legend,
    setting: Setting<'_>,
    values: &[Value],
) {
    let mut mark = b'(';
    for value in values {
        out.push(mark);
        mark = b',';
        put_short(out, legend, setting, value);
    }
    if !values.is_empty() {
        out.push(b')');
    }
}
