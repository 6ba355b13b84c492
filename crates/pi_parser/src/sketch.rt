//! What the grammar makes of a file: one variant for each alternative that it has, with the number of its first token
//! and its parts in source order. Identifiers and numbers are the numbers of their tokens, from 0.
//!
//! Terms, patterns and units have a `drop` that is written out: so it is one call wherever one of them is let go.

use std::marker::Model;

/// A term.
#[cycle(term)]
pub enum TermSketch {
    /// `name(arguments)`, or `name` alone where there are no arguments.
    Named(usize, TermsSketch),
    /// `(parts)`: a term in parentheses, or a tuple.
    Grouped(usize, TermsSketch),
}

impl Drop for TermSketch {
    #[cycle(term_drop)]
    fn drop(self) {
        match self {
            TermSketch::Named(_, arguments) => drop(arguments),
            TermSketch::Grouped(_, parts) => drop(parts),
        }
    }
}

/// Terms in a row.
#[cycle(term)]
#[derive(Drop)]
pub struct TermsSketch {
    pub items: Vec<TermSketch>,
}

impl Model for TermsSketch {
    ghost use Rattle.std.specs.Prelude.{List, map};
    ghost use Rattle.spec_protocol_grammar.specs.Sketch as own;
    ghost use Rattle.pi_parser.specs.Codes.{terms_depth, coded_term_sketches};

    ghost Value = { List own.TermSketch };

    ghost coded = { coded_term_sketches };

    ghost use Rattle.pi_parser.specs.Terms.{term_of};

    ghost view = { λ a. map term_of a.items.items };

    ghost size = { λ ts. terms_depth (own.terms_sketch ts) };

    ghost use Rattle.pi_parser.specs.TermDepths.{terms_fall};

    ghost size_decreases = { λ a h. terms_fall a.items.items };
}

/// A pattern.
#[cycle(pattern)]
pub enum PatternSketch {
    /// `name(arguments)`, or `name` alone where there are no arguments.
    Named(usize, PatternsSketch),
    /// `= term`.
    Equal(usize, TermSketch),
    /// `(parts)`: a pattern in parentheses, or a tuple.
    Grouped(usize, PatternsSketch),
}

impl Drop for PatternSketch {
    #[cycle(pattern_drop)]
    fn drop(self) {
        match self {
            PatternSketch::Named(_, arguments) => drop(arguments),
            PatternSketch::Equal(_, term) => drop(term),
            PatternSketch::Grouped(_, parts) => drop(parts),
        }
    }
}

/// Patterns in a row.
#[cycle(pattern)]
#[derive(Drop)]
pub struct PatternsSketch {
    pub items: Vec<PatternSketch>,
}

impl Model for PatternsSketch {
    ghost use Rattle.std.specs.Prelude.{List, map};
    ghost use Rattle.spec_protocol_grammar.specs.Sketch as own;
    ghost use Rattle.pi_parser.specs.Codes.{patterns_depth, coded_pattern_sketches};

    ghost Value = { List own.PatternSketch };

    ghost coded = { coded_pattern_sketches };

    ghost use Rattle.pi_parser.specs.Patterns.{pattern_of};

    ghost view = { λ a. map pattern_of a.items.items };

    ghost size = { λ ps. patterns_depth (own.patterns_sketch ps) };

    ghost use Rattle.pi_parser.specs.PatternDepths.{patterns_fall};

    ghost size_decreases = { λ a h. patterns_fall a.items.items };
}

/// An event or an entry, `name(arguments)`, or `name` alone where there are no arguments.
pub struct AtomSketch {
    pub first: usize,
    pub arguments: TermsSketch,
}

impl Drop for AtomSketch {
    fn drop(self) {
        let AtomSketch {
            first: _,
            arguments,
        } = self;
        drop(arguments);
    }
}

/// What is asked of an entry besides its patterns.
#[derive(Drop)]
pub enum ConditionSketch {
    /// Nothing.
    Always,
    /// `suchthat left = right`.
    SuchThat(TermSketch, TermSketch),
}

/// A process.
#[cycle(process)]
pub enum ProcessSketch {
    /// A unit alone.
    Alone(Box<UnitSketch>),
    /// `unit | process`.
    Beside(Box<UnitSketch>, Box<ProcessSketch>),
}

impl Drop for ProcessSketch {
    #[cycle(process_drop)]
    fn drop(self) {
        match self {
            ProcessSketch::Alone(part) => drop(part),
            ProcessSketch::Beside(part0, part1) => {
                drop(part0);
                drop(part1);
            }
        }
    }
}

/// A unit of a process.
#[cycle(process)]
pub enum UnitSketch {
    /// `0`.
    Zero(usize),
    /// `name`, the use of a macro.
    Macro(usize),
    /// `(process)`.
    Inner(usize, Box<ProcessSketch>),
    /// `! unit`.
    Replicated(usize, Box<UnitSketch>),
    /// `new name`.
    New(usize, usize, NextSketch),
    /// `out(channel, message)`.
    Output(usize, TermSketch, TermSketch, NextSketch),
    /// `in(channel, pattern)`.
    Input(usize, TermSketch, PatternSketch, NextSketch),
    /// `event atom`.
    Happens(usize, AtomSketch, NextSketch),
    /// `let pattern = term in unit`, and its else branch.
    Let(usize, PatternSketch, TermSketch, Box<UnitSketch>, NextSketch),
    /// `if left = right then unit`, and its else branch.
    If(usize, TermSketch, TermSketch, Box<UnitSketch>, NextSketch),
    /// `phase number`.
    Phase(usize, usize, NextSketch),
    /// `insert table(arguments)`.
    Insert(usize, AtomSketch, NextSketch),
    /// `get table(patterns) in unit`, with a condition and its else branch.
    Get(usize, usize, PatternsSketch, ConditionSketch, Box<UnitSketch>, NextSketch),
}

impl Drop for UnitSketch {
    #[cycle(process_drop)]
    fn drop(self) {
        match self {
            UnitSketch::Zero(_) | UnitSketch::Macro(_) => {}
            UnitSketch::Inner(_, process) => drop(process),
            UnitSketch::Replicated(_, unit) => drop(unit),
            UnitSketch::New(_, _, next) => drop(next),
            UnitSketch::Output(_, channel, message, next) => {
                drop(channel);
                drop(message);
                drop(next);
            }
            UnitSketch::Input(_, channel, pattern, next) => {
                drop(channel);
                drop(pattern);
                drop(next);
            }
            UnitSketch::Happens(_, atom, next) => {
                drop(atom);
                drop(next);
            }
            UnitSketch::Let(_, pattern, term, unit, otherwise) => {
                drop(pattern);
                drop(term);
                drop(unit);
                drop(otherwise);
            }
            UnitSketch::If(_, left, right, unit, otherwise) => {
                drop(left);
                drop(right);
                drop(unit);
                drop(otherwise);
            }
            UnitSketch::Phase(_, _, next) => drop(next),
            UnitSketch::Insert(_, entry, next) => {
                drop(entry);
                drop(next);
            }
            UnitSketch::Get(_, _, patterns, condition, unit, otherwise) => {
                drop(patterns);
                drop(condition);
                drop(unit);
                drop(otherwise);
            }
        }
    }
}

/// A continuation, or an else branch.
#[cycle(process)]
#[derive(Drop)]
pub enum NextSketch {
    /// Nothing.
    Omitted,
    /// `; unit`, or `else unit`.
    Given(Box<UnitSketch>),
}

/// One alternative of a query: `event atom`, and further events, each behind `&&`.
pub struct AlternativeSketch {
    pub atom: AtomSketch,
    pub others: Vec<AtomSketch>,
}

impl Drop for AlternativeSketch {
    fn drop(self) {
        let AlternativeSketch { atom, others } = self;
        drop(atom);
        drop(others);
    }
}

/// What a query asks; of secrets with the number behind the word `phase`, if there is one.
pub enum QuerySketch {
    /// `attacker(new name)`.
    AttackerNew(usize, usize, Option<usize>),
    /// `attacker(message)`.
    Attacker(usize, TermSketch, Option<usize>),
    /// `event atom ==> alternatives`, or `event atom ==> false` where there are none.
    Correspondence(usize, AtomSketch, Vec<AlternativeSketch>),
}

impl Drop for QuerySketch {
    fn drop(self) {
        match self {
            QuerySketch::AttackerNew(_, _, _) => {}
            QuerySketch::Attacker(_, part, _) => drop(part),
            QuerySketch::Correspondence(_, part1, part2) => {
                drop(part1);
                drop(part2);
            }
        }
    }
}

/// A rule, `name(arguments) -> result`.
pub struct RuleSketch {
    pub first: usize,
    pub arguments: TermsSketch,
    pub result: TermSketch,
}

impl Drop for RuleSketch {
    fn drop(self) {
        let RuleSketch {
            first: _,
            arguments,
            result,
        } = self;
        drop(arguments);
        drop(result);
    }
}

/// A declaration.
pub enum DeclarationSketch {
    /// `free name, others.`, after `private` if not public.
    Free {
        first: usize,
        public: bool,
        name: usize,
        others: Vec<usize>,
    },
    /// `fun name/arity.`, after `private` if not public.
    Fun {
        first: usize,
        public: bool,
        name: usize,
        arity: usize,
    },
    /// `data name/arity.`
    Data {
        first: usize,
        name: usize,
        arity: usize,
    },
    /// `reduc rule; others.`
    Reduc {
        first: usize,
        rule: RuleSketch,
        others: Vec<RuleSketch>,
    },
    /// `event name/arity.`
    Event {
        first: usize,
        name: usize,
        arity: usize,
    },
    /// `table name/arity.`
    Table {
        first: usize,
        name: usize,
        arity: usize,
    },
    /// `query question.`
    Query {
        first: usize,
        question: QuerySketch,
    },
    /// `let name = process.`
    Definition {
        first: usize,
        name: usize,
        process: ProcessSketch,
    },
}

impl Drop for DeclarationSketch {
    fn drop(self) {
        match self {
            DeclarationSketch::Free {
                first: _,
                public: _,
                name: _,
                others,
            } => drop(others),
            DeclarationSketch::Fun {
                first: _,
                public: _,
                name: _,
                arity: _,
            } => {}
            DeclarationSketch::Data {
                first: _,
                name: _,
                arity: _,
            } => {}
            DeclarationSketch::Reduc {
                first: _,
                rule,
                others,
            } => {
                drop(rule);
                drop(others);
            }
            DeclarationSketch::Event {
                first: _,
                name: _,
                arity: _,
            } => {}
            DeclarationSketch::Table {
                first: _,
                name: _,
                arity: _,
            } => {}
            DeclarationSketch::Query { first: _, question } => drop(question),
            DeclarationSketch::Definition {
                first: _,
                name: _,
                process,
            } => drop(process),
        }
    }
}

/// A file: its declarations, the number of the word `process`, and the main process.
pub struct Sketch {
    pub declarations: Vec<DeclarationSketch>,
    pub first: usize,
    pub main: ProcessSketch,
}

impl Drop for Sketch {
    fn drop(self) {
        let Sketch {
            declarations,
            first: _,
            main,
        } = self;
        drop(declarations);
        drop(main);
    }
}
