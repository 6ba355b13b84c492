//! The text of a run: which bytes spell which steps, and where bytes are refused.
//!
//! A text is lines, each ended by a line feed, which the last may lack. A line is the word of a step and its
//! numbers, one space before each; a number is decimal, within the limit of digits, without leading zero. A
//! line is within the limit of bytes, its line feed not counted.
//!
//! The definitions stand in `specs/`. The laws about them that a reader would ask for are the contracts of the
//! functions below, which do nothing.
#![tactic(auto)]

ghost use Rattle.std.specs.Prelude.{◌≡◌, ◌≤◌, ◌↔◌, ℕ, List, length, Ok, Err};
ghost use Rattle.std.specs.List.{AllByRecursion};
ghost use Rattle.std.specs.Fmt.{decimal};
ghost use Rattle.spec_calculus.specs.Runs.{Step};
ghost use Rattle.spec_run_text.specs.Spelling.{IsSmall};
ghost use Rattle.spec_run_text.specs.Faults.{Fault};
ghost use Rattle.spec_run_text.specs.Text.{SpellsRun, IsRefused, IsWritable};
ghost use Rattle.spec_run_text.specs.Reading.{reading};
ghost use Rattle.spec_run_text.specs.Laws.{HasAnswer, IsText, IsNumeral};

/// Bytes spell at most one list of steps.
pub fn one_run()
    ensures { (bytes : List ℕ) (xs ys : List Step) → SpellsRun bytes xs → SpellsRun bytes ys →
        xs ≡ ys }
{}

/// Bytes are refused for one fault at one line at most.
pub fn one_refusal()
    ensures { (bytes : List ℕ) (f g : Fault) (i j : ℕ) → IsRefused bytes f i → IsRefused bytes g j →
        (f ≡ g) × (i ≡ j) }
{}

/// Bytes that spell steps are not refused.
pub fn never_both()
    ensures { (bytes : List ℕ) (steps : List Step) (fault : Fault) (number : ℕ) →
        SpellsRun bytes steps → IsRefused bytes fault number → ⊥ }
{}

/// Bytes spell steps or are refused.
pub fn always_one()
    ensures { (bytes : List ℕ) → HasAnswer bytes }
{}

/// Bytes spell steps exactly where they are the steps' text, of which the last line feed may be lacking, and
/// each step has a line: its numbers are within the limit of digits, and its line within that of bytes.
pub fn texts_are_exact()
    ensures { (bytes : List ℕ) (steps : List Step) →
        SpellsRun bytes steps ↔ (IsText bytes steps × AllByRecursion IsWritable steps) }
{}

/// The numbers of a line are decimal digits, one at least and no more than the limit, and no 0 stands before another digit.
pub fn numerals_are_decimal()
    ensures { (digits : List ℕ) (n : ℕ) → ((digits ≡ decimal n) × IsSmall n) ↔ IsNumeral digits n }
{}

/// What is computed of bytes is what they spell, or their refusal.
pub fn reading_is_exact()
    ensures steps { (bytes : List ℕ) (steps : List Step) →
        (reading bytes ≡ Ok steps) ↔ SpellsRun bytes steps }
    ensures refusal { (bytes : List ℕ) (fault : Fault) (number : ℕ) →
        (reading bytes ≡ Err (fault, number)) ↔ IsRefused bytes fault number }
{}

/// Bytes spell no more steps than there are bytes.
pub fn few_steps()
    ensures { (bytes : List ℕ) (steps : List Step) → SpellsRun bytes steps →
        length steps ≤ length bytes }
{}
