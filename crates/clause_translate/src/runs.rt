//! What a translation says of runs (Blanchet 2016, section 3.3.4: soundness of the clauses).

ghost use Rattle.std.specs.Prelude.{List};
ghost use Rattle.spec_calculus.specs.Syntax.{Query, Protocol};
ghost use Rattle.spec_well_formed.specs.Rules.{HasProperRules};
ghost use Rattle.spec_well_formed.specs.Processes.{HasLinearPatterns};
ghost use Rattle.spec_terms.specs.Term.{Term};
ghost use Rattle.spec_clauses.specs.Fact.{Clause};
ghost use Rattle.spec_translation.specs.Translation.{Clauses, IsTranslation};
ghost use Rattle.clause_translate.specs.Soundness.{AbstractsRuns};

use spec_abstraction::{
    abstraction_is_one_to_one, names_of_runs_have_entries, restrictions_run_once, runs_are_derived,
    runs_are_named,
};

/// The clauses of a translation abstract every run: by an abstraction that is one to one on the run's values, what the
/// attacker knows is derived from the clauses with all events that were performed, and each event with those before it.
pub fn translations_abstract_runs()
    ensures { (P : Protocol) (q : Query) (all : List (Clause Term)) →
        HasProperRules P → HasLinearPatterns P.main → IsTranslation P q (Clauses all) →
        AbstractsRuns P all }
{
    runs_are_named();
    names_of_runs_have_entries();
    restrictions_run_once();
    abstraction_is_one_to_one();
    runs_are_derived();
}
