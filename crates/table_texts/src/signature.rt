//! The names that tables may use.
//!
//! `f`, `g`, `h`, `enc` and `k1` .. are constructors, `box` and `pair` data constructors; `c`, `d` and `k` are free
//! names; `e`, `begin` and `end` are events, `keys` and `hosts` tables of entries. `v12` is the variable 12, `?3` the variable 3 of
//! those that a constraint binds, `n@3` a restricted name of the point 3, `@` an attacker's name, and no name at all a tuple. How
//! many arguments a name has is up to the table of rows.

use term_tree::Sym;

/// Constructors from this number on stand for events while a clause is read.
const EVENTS: u32 = 1000;

/// Constructors from this number on stand for tables of entries while a clause is read.
const TABLES: u32 = 2000;

/// The number that the digits among these bytes spell.
pub fn number_in(bytes: &[u8]) -> u32 {
    let mut number = 0u32;
    for byte in bytes {
        if byte.is_ascii_digit() {
            let digit = u32::from(byte.saturating_sub(b'0'));
            number = number.saturating_mul(10).saturating_add(digit);
        }
    }
    number
}

/// The number of the variable with this name, if it is a variable's. Within a constraint bound variables are numbered from `bound` on;
/// elsewhere there are none.
pub fn variable_of(name: &[u8], bound: Option<u32>) -> Option<u32> {
    match name.first() {
        Some(b'v') => Some(number_in(name)),
        Some(b'?') => match bound {
            Some(first) => Some(first.saturating_add(number_in(name))),
            None => None,
        },
        _ => None,
    }
}

/// The least number above those of all variables in a text, bound ones left out.
pub fn above_variables_in(text: &[u8]) -> u32 {
    let mut least = 0u32;
    for (place, byte) in text.iter().enumerate() {
        if *byte == b'v' {
            least = least.max(above_number(&text[place + 1..]));
        }
    }
    least
}

/// One more than the number that these bytes begin with; 0 where they begin with none.
fn above_number(bytes: &[u8]) -> u32 {
    let digits = match bytes.iter().position(|byte| !byte.is_ascii_digit()) {
        Some(end) => &bytes[..end],
        None => bytes,
    };
    if digits.is_empty() {
        return 0;
    }
    number_in(digits).saturating_add(1)
}

/// The symbols with names of their own, constructors that stand for events and for tables among them.
const SYMBOLS: [(&str, Sym); 15] = [
    ("f", Sym::Ctor(1)),
    ("g", Sym::Ctor(2)),
    ("h", Sym::Ctor(3)),
    ("enc", Sym::Ctor(4)),
    ("box", Sym::Data(5)),
    ("pair", Sym::Data(6)),
    ("c", Sym::Free(1)),
    ("d", Sym::Free(2)),
    ("k", Sym::Free(3)),
    ("e", Sym::Ctor(1001)),
    ("begin", Sym::Ctor(1002)),
    ("end", Sym::Ctor(1003)),
    ("keys", Sym::Ctor(2001)),
    ("hosts", Sym::Ctor(2002)),
    ("@", Sym::Attacker),
];

/// The symbol with this name, over so many arguments.
pub fn symbol_of(name: &[u8], arguments: usize) -> Option<Sym> {
    if name.is_empty() {
        return Some(Sym::Tuple(u32::try_from(arguments).ok()?));
    }
    if name.starts_with(b"n@") {
        return Some(Sym::Point(number_in(name)));
    }
    for (word, symbol) in &SYMBOLS {
        if word.as_bytes() == name {
            return Some(*symbol);
        }
    }
    None
}

/// The number of the event that stands for this symbol while a clause is read, if one does.
pub fn event_of(symbol: Sym) -> Option<u32> {
    match symbol {
        Sym::Ctor(number) => number.checked_sub(EVENTS),
        _ => None,
    }
}

/// The number of the table that stands for this symbol while a clause is read, if one does.
pub fn table_of(symbol: Sym) -> Option<u32> {
    match symbol {
        Sym::Ctor(number) => number.checked_sub(TABLES),
        _ => None,
    }
}

/// The name of an event.
pub fn event_name(event: u32) -> &'static str {
    symbol_name(Sym::Ctor(event.saturating_add(EVENTS)))
}

/// The name of a table of entries.
pub fn table_name(table: u32) -> &'static str {
    symbol_name(Sym::Ctor(table.saturating_add(TABLES)))
}

/// The name of a symbol that is no restricted name.
pub fn symbol_name(symbol: Sym) -> &'static str {
    if let Sym::Tuple(_) = symbol {
        return "";
    }
    for (word, named) in &SYMBOLS {
        if named.is_same(symbol) {
            return word;
        }
    }
    "?"
}
