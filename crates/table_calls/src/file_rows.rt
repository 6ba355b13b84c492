//! Rows about files: their tokens, what the grammar makes of them, and the parts of the protocols that they spell.
//!
//! `file TEXT` sets the file, in which `\80` is the byte 0x80. A row is a word of `SHOWN` and what is expected: the tokens, each
//! with its kind and its span, or a value as `Debug` has it.
//!
//! The clauses of a reader say more than is asked here. So each is called in a function of its own, whose clause says what
//! the next one wants, and what stands below is not proved over all that the readers say.

ghost use Rattle.std.specs.Prelude.{IfOk};
ghost use Rattle.spec_protocol_tokens.specs.Lexed.{Lexed};

use pi_lexer::{LexError, Token, Tokens, lex};
use pi_parser::{DeclarationSketch, ProcessSketch, Sketch, UnitSketch, parse};
use pi_tree::Protocol;
use std::alloc::{AllocError, Global};
use std::fmt::Debug;
use table_protocols::spelled;
use table_rows::{Line, compared, named, unknown};

/// The rows of a table about files.
#[derive(Drop)]
pub struct FileRows {
    /// The file that was set last.
    file: Vec<u8>,
}

/// What a row shows of the file.
#[derive(Clone, Copy)]
enum Shown {
    Tokens,
    Sketch,
    Part(Part),
}

/// A part of a protocol.
#[derive(Clone, Copy)]
enum Part {
    Main,
    Queries,
    Destructors,
    Frees,
    Constructors,
}

/// What is shown, by the first words of the rows.
const SHOWN: [(&str, Shown); 7] = [
    ("tokens", Shown::Tokens),
    ("sketch", Shown::Sketch),
    ("main", Shown::Part(Part::Main)),
    ("queries", Shown::Part(Part::Queries)),
    ("destructors", Shown::Part(Part::Destructors)),
    ("frees", Shown::Part(Part::Frees)),
    ("constructors", Shown::Part(Part::Constructors)),
];

impl FileRows {
    /// No line is read, and the file is empty.
    pub fn new(alloc: Global) -> FileRows {
        FileRows {
            file: Vec::new(alloc),
        }
    }

    /// Sets the file, or compares what a row shows with what it expects.
    pub fn follow(&mut self, alloc: Global, line: &str) -> Result<Line, AllocError> {
        let (word, text) = line.split_once(' ').unwrap_or((line, ""));
        if word == "file" {
            self.file = bytes_of(alloc, text)?;
            return Ok(Line::Setting);
        }
        match named(&SHOWN, word) {
            Some(shown) => Ok(compared(shown_text(alloc, &self.file, shown)?, text)),
            None => unknown(alloc),
        }
    }
}

/// The number that a hexadecimal digit spells.
fn nibble(digit: u8) -> u8 {
    match digit {
        b'0'..=b'9' => digit - b'0',
        b'a'..=b'f' => digit - b'a' + 10,
        _ => 0,
    }
}

/// The bytes of a text in which a backslash and two hexadecimal digits are a byte.
fn bytes_of(alloc: Global, text: &str) -> Result<Vec<u8>, AllocError> {
    let mut bytes = Vec::new(alloc);
    for (index, piece) in text.split('\\').enumerate() {
        if index == 0 {
            bytes.extend_from_slice(piece.as_bytes())?;
        } else {
            add_piece(piece.as_bytes(), &mut bytes)?;
        }
    }
    Ok(bytes)
}

/// Adds what a piece behind a backslash spells: the byte of its two digits, and the rest as it is.
fn add_piece(piece: &[u8], bytes: &mut Vec<u8>) -> Result<(), AllocError> {
    if let [high, low, rest @ ..] = piece {
        bytes.push(
            nibble(*high)
                .saturating_mul(16)
                .saturating_add(nibble(*low)),
        )?;
        bytes.extend_from_slice(rest)?;
    }
    Ok(())
}

/// A value's text, as `Debug` has it.
fn debug_text<T: Debug>(alloc: Global, value: &T) -> Result<String, AllocError> {
    format!(in alloc; "{value:?}")
}

/// What is shown of the file.
fn shown_text(alloc: Global, file: &[u8], shown: Shown) -> Result<String, AllocError> {
    match shown {
        Shown::Tokens => tokens_of(alloc, file),
        Shown::Sketch => sketch_of(alloc, file),
        Shown::Part(part) => part_of(alloc, file, part),
    }
}

/// The tokens of a file.
fn lexed(alloc: Global, file: &[u8]) -> Result<Tokens, LexError>
    ensures { IfOk result (λ tokens. Lexed file.now tokens) }
{
    lex(alloc, file)
}

/// A token with its kind and its span.
fn token_text(alloc: Global, token: &Token) -> Result<String, AllocError> {
    format!(in alloc; "{:?} {}-{}.", token.kind, token.from, token.to)
}

/// Tokens, each with its kind and its span.
fn tokens_text(alloc: Global, tokens: &Tokens) -> Result<String, AllocError> {
    let mut text = String::new(alloc);
    for token in &tokens.items {
        let item = token_text(alloc, token)?;
        text.push_str(item.as_str())?;
    }
    Ok(text)
}

/// The tokens of a file, each with its kind and its span.
fn tokens_of(alloc: Global, file: &[u8]) -> Result<String, AllocError> {
    match lexed(alloc, file) {
        Ok(tokens) => tokens_text(alloc, &tokens),
        Err(_) => String::from_str(alloc, "no tokens"),
    }
}

/// What the grammar makes of a file.
fn sketch_of(alloc: Global, file: &[u8]) -> Result<String, AllocError> {
    match lexed(alloc, file) {
        Ok(tokens) => parsed_text(alloc, file, &tokens),
        Err(_) => String::from_str(alloc, "no tokens"),
    }
}

/// What the grammar makes of the tokens of a file.
fn parsed_text(alloc: Global, file: &[u8], tokens: &Tokens) -> Result<String, AllocError>
    requires { Lexed file.now tokens.now }
{
    match parse(alloc, file, tokens) {
        Ok(sketch) => sketch_text(alloc, &sketch),
        Err(_) => String::from_str(alloc, "no sketch"),
    }
}

/// A sketch, as `Debug` has values; a part that no row has is `..`.
fn sketch_text(alloc: Global, sketch: &Sketch) -> Result<String, AllocError> {
    let declared = declarations_text(alloc, &sketch.declarations)?;
    let main = process_text(alloc, &sketch.main)?;
    format!(in alloc;
        "Ok(Sketch {{ declarations: [{}], first: {}, main: {} }})",
        declared.as_str(),
        sketch.first,
        main.as_str()
    )
}

/// Declarations.
fn declarations_text(alloc: Global, all: &[DeclarationSketch]) -> Result<String, AllocError> {
    let mut text = String::new(alloc);
    for declaration in all {
        if !text.is_empty() {
            text.push_str(", ")?;
        }
        add_declaration(alloc, declaration, &mut text)?;
    }
    Ok(text)
}

/// Adds a declaration.
fn add_declaration(
    alloc: Global,
    declaration: &DeclarationSketch,
    text: &mut String,
) -> Result<(), AllocError> {
    match declaration {
        DeclarationSketch::Data { first, name, arity } => {
            let item = format!(in alloc;
                "Data {{ first: {first}, name: {name}, arity: {arity} }}"
            )?;
            text.push_str(item.as_str())
        }
        _ => text.push_str(".."),
    }
}

/// A process of one unit, or of two.
fn process_text(alloc: Global, process: &ProcessSketch) -> Result<String, AllocError> {
    match process {
        ProcessSketch::Alone(unit) => alone_text(alloc, unit),
        ProcessSketch::Beside(unit, rest) => match &**rest {
            ProcessSketch::Alone(other) => {
                let first = unit_text(alloc, unit)?;
                let second = alone_text(alloc, other)?;
                format!(in alloc; "Beside({}, {})", first.as_str(), second.as_str())
            }
            ProcessSketch::Beside(..) => String::from_str(alloc, ".."),
        },
    }
}

/// A unit alone.
fn alone_text(alloc: Global, unit: &UnitSketch) -> Result<String, AllocError> {
    let text = unit_text(alloc, unit)?;
    format!(in alloc; "Alone({})", text.as_str())
}

/// A unit.
fn unit_text(alloc: Global, unit: &UnitSketch) -> Result<String, AllocError> {
    match unit {
        UnitSketch::Zero(at) => format!(in alloc; "Zero({at})"),
        UnitSketch::Macro(at) => format!(in alloc; "Macro({at})"),
        _ => String::from_str(alloc, ".."),
    }
}

/// A part of the protocol that the file spells.
fn part_of(alloc: Global, file: &[u8], part: Part) -> Result<String, AllocError> {
    match spelled(alloc, file) {
        Some(protocol) => part_text(alloc, &protocol, part),
        None => String::from_str(alloc, "no protocol"),
    }
}

/// The text of a part of a protocol.
fn part_text(alloc: Global, protocol: &Protocol, part: Part) -> Result<String, AllocError> {
    match part {
        Part::Main => debug_text(alloc, &protocol.main),
        Part::Queries => debug_text(alloc, &protocol.queries),
        Part::Destructors => debug_text(alloc, &protocol.dtors),
        Part::Frees => debug_text(alloc, &protocol.frees),
        Part::Constructors => debug_text(alloc, &protocol.ctors),
    }
}
