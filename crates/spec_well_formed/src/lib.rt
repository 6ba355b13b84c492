//! Well-formed protocols: what holds of each protocol that a file spells, said of the calculus's data alone.
#![tactic(auto)]

ghost use Rattle.std.specs.Prelude.{ℕ};
ghost use Rattle.spec_calculus.specs.Syntax.{Process};
ghost use Rattle.spec_calculus.specs.Plain.{IsPlain};
ghost use Rattle.spec_well_formed.specs.Processes.{ArePhasesOrdered, AreSmallEntries};

/// In a process that waits for no phase and has no tables, phases come in their order, and entries are within the limit.
pub fn plain_processes_are_ordered()
    ensures phases { (process : Process) → IsPlain process → (now : ℕ) → ArePhasesOrdered now process }
    ensures entries { (process : Process) → IsPlain process → AreSmallEntries process }
{}
