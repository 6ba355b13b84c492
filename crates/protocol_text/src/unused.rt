//! Names and macros that nobody uses.

use crate::sources::{Source, WordSet};
use crate::text::Text;
use pi_parser::DeclarationSketch;
use std::alloc::AllocError;

/// The words that stand in a file, by where they stand.
#[derive(Drop)]
struct Uses {
    /// In queries, in the main process, and in the macros that are used.
    in_use: WordSet,
    /// In rules of destructors.
    in_rules: WordSet,
}

/// Adds what stands in one declaration; in a macro only where it is used.
fn add_declaration(source: Source<'_>, declaration: &DeclarationSketch, uses: &mut Uses) {
    match declaration {
        DeclarationSketch::Definition { name, .. } => {
            if uses.in_use.has(source.text(*name)) {
                source.add_words(*name, &mut uses.in_use);
            }
        }
        DeclarationSketch::Query { first, .. } => source.add_words(*first, &mut uses.in_use),
        DeclarationSketch::Reduc { first, .. } => source.add_words(*first, &mut uses.in_rules),
        _ => {}
    }
}

/// The words of a file by where they stand. A macro is declared before it is used, so the last declaration comes first.
fn uses_of(source: Source<'_>) -> Result<Uses, AllocError> {
    let in_use = WordSet::new(source.alloc)?;
    let in_rules = WordSet::new(source.alloc)?;
    let mut uses = Uses { in_use, in_rules };
    let sketch = source.sketch;
    source.add_words(sketch.first, &mut uses.in_use);
    for declaration in sketch.declarations.iter().rev() {
        add_declaration(source, declaration, &mut uses);
    }
    Ok(uses)
}

/// The words that stand in queries, in the main process, and in the macros that are used.
pub(crate) fn words_in_use(source: Source<'_>) -> Result<WordSet, AllocError> {
    let Uses { in_use, in_rules } = uses_of(source)?;
    drop(in_rules);
    Ok(in_use)
}

/// Puts the token of a name, where nothing in use has its word, nor a rule where rules count.
fn put_name(text: &mut Text, source: Source<'_>, uses: &Uses, token: usize, rules_count: bool) {
    let word = source.text(token);
    if !uses.in_use.has(word) && !(rules_count && uses.in_rules.has(word)) {
        source.put_line(text, token);
        text.put(word);
        text.put(b" is declared, and nobody uses it\n");
    }
}

/// Puts the names of one declaration that nobody uses. A free name that is public, and a destructor, are used by the attacker.
fn put_names(text: &mut Text, source: Source<'_>, uses: &Uses, declaration: &DeclarationSketch) {
    match declaration {
        DeclarationSketch::Free {
            public: false,
            name,
            others,
            ..
        } => {
            put_name(text, source, uses, *name, false);
            for other in others {
                put_name(text, source, uses, *other, false);
            }
        }
        DeclarationSketch::Fun { name, .. } | DeclarationSketch::Data { name, .. } => {
            put_name(text, source, uses, *name, true)
        }
        DeclarationSketch::Event { name, .. }
        | DeclarationSketch::Table { name, .. }
        | DeclarationSketch::Definition { name, .. } => {
            put_name(text, source, uses, *name, false)
        }
        _ => {}
    }
}

/// Puts what is declared and nobody uses: a private free name, an event, a table, a macro, or a constructor that stands in no query
/// and neither in the main process nor in a macro that it uses; a constructor in no rule either.
pub(crate) fn put_unused(text: &mut Text, source: Source<'_>) -> Result<(), AllocError> {
    let uses = uses_of(source)?;
    let sketch = source.sketch;
    for declaration in &sketch.declarations {
        put_names(text, source, &uses, declaration);
    }
    Ok(())
}
