//! The limits of protocols, of runs, of clauses and of reports. The definitions name each once, and the constants
//! here are those numbers.
#![tactic(auto)]

ghost use Rattle.std.specs.Prelude.{◌≡◌};
ghost use Rattle.spec_calculus.specs.Bounds.{most_bytes, most_report_bytes, most_run_bytes, most_line_bytes, most_digits, most_levels, most_names, most_arguments, most_rules, most_alternatives, most_events, most_queries, most_written_symbols, most_points, most_points_above, most_applications, most_choices, most_symbols, most_term_levels, most_visits, most_clauses, most_budget, most_keys, most_phases};

/// The most bytes of a protocol's text.
pub const MOST_BYTES: usize = 1_048_576;

/// The most bytes of a report.
pub const MOST_REPORT_BYTES: usize = 67_108_864;

/// The most bytes of a run's text.
pub const MOST_RUN_BYTES: usize = 16_777_216;

/// The most bytes of a line of a run's text, its line feed not counted.
pub const MOST_LINE_BYTES: usize = 256;

/// The most digits of a number.
pub const MOST_DIGITS: usize = 9;

/// The most levels of the grammar that are open at a place of a protocol's text.
pub const MOST_LEVELS: usize = 512;

/// The most declared names, functions, events and macros together.
pub const MOST_NAMES: usize = 1024;

/// The most arguments of a name, and parts of a tuple.
pub const MOST_ARGUMENTS: usize = 16;

/// The most rules of a destructor.
pub const MOST_RULES: usize = 16;

/// The most alternatives of a query.
pub const MOST_ALTERNATIVES: usize = 16;

/// The most events of an alternative.
pub const MOST_EVENTS: usize = 16;

/// The most queries.
pub const MOST_QUERIES: usize = 256;

/// The most symbols of a term in a protocol's text, of a whole rule, and of a query's event.
pub const MOST_WRITTEN_SYMBOLS: u32 = 2000;

/// The most points of the main process, after macros are expanded.
pub const MOST_POINTS: usize = 4096;

/// The most points above a point.
pub const MOST_POINTS_ABOVE: usize = 511;

/// The most applications of destructors in an expression.
pub const MOST_APPLICATIONS: u32 = 16;

/// The most choices of rules for the destructors of an expression.
pub const MOST_CHOICES: u64 = 65_536;

/// The most symbols of a clause or a bound term, and of a value in a replay.
pub const MOST_SYMBOLS: u64 = 16_384;

/// The most levels of a term in the text of a certificate.
pub const MOST_TERM_LEVELS: usize = 16_384;

/// The most visits of one translation.
pub const MOST_VISITS: u32 = 65_536;

/// The most clauses of a certificate.
pub const MOST_CLAUSES: usize = 1_000_000;

/// The greatest budget: a log has no more entries.
pub const MOST_BUDGET: u64 = 1_000_000;

/// The most keys of a ring.
pub const MOST_KEYS: u64 = 400;

/// The greatest phase.
pub const MOST_PHASES: u32 = 16;

/// Each constant is the number that the definitions name.
pub fn limits_are_named()
    ensures bytes { MOST_BYTES ≡ most_bytes }
    ensures report_bytes { MOST_REPORT_BYTES ≡ most_report_bytes }
    ensures run_bytes { MOST_RUN_BYTES ≡ most_run_bytes }
    ensures line_bytes { MOST_LINE_BYTES ≡ most_line_bytes }
    ensures digits { MOST_DIGITS ≡ most_digits }
    ensures levels { MOST_LEVELS ≡ most_levels }
    ensures names { MOST_NAMES ≡ most_names }
    ensures arguments { MOST_ARGUMENTS ≡ most_arguments }
    ensures rules { MOST_RULES ≡ most_rules }
    ensures alternatives { MOST_ALTERNATIVES ≡ most_alternatives }
    ensures events { MOST_EVENTS ≡ most_events }
    ensures queries { MOST_QUERIES ≡ most_queries }
    ensures written_symbols { MOST_WRITTEN_SYMBOLS ≡ most_written_symbols }
    ensures points { MOST_POINTS ≡ most_points }
    ensures points_above { MOST_POINTS_ABOVE ≡ most_points_above }
    ensures applications { MOST_APPLICATIONS ≡ most_applications }
    ensures choices { MOST_CHOICES ≡ most_choices }
    ensures symbols { MOST_SYMBOLS ≡ most_symbols }
    ensures term_levels { MOST_TERM_LEVELS ≡ most_term_levels }
    ensures visits { MOST_VISITS ≡ most_visits }
    ensures clauses { MOST_CLAUSES ≡ most_clauses }
    ensures budget { MOST_BUDGET ≡ most_budget }
    ensures keys { MOST_KEYS ≡ most_keys }
    ensures phases { MOST_PHASES ≡ most_phases }
{}
