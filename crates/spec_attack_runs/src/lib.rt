//! Attack runs: where the clauses of a translation come from, the instances that a clause of a log comes from, and the run that they are
//! compiled to (the reconstruction of attacks from derivations: Allamigeon and Blanchet 2005). The definitions stand in `specs/`; the
//! functions here have empty bodies, and say in their contracts what holds of the definitions.
#![tactic(auto)]

ghost use Rattle.std.specs.Prelude.{◌≡◌, ℕ, Option, Some, List, [], ◌∷◌, map};
ghost use Rattle.spec_calculus.specs.Syntax.{Query, Protocol};
ghost use Rattle.spec_calculus.specs.Runs.{Configuration, Step, Hear, start, run};
ghost use Rattle.spec_calculus.specs.Secrecy.{Holds};
ghost use Rattle.spec_terms.specs.Term.{Term};
ghost use Rattle.spec_clauses.specs.Fact.{Clause};
ghost use Rattle.spec_translation.specs.Translation.{Clauses, IsTranslation};
ghost use Rattle.spec_saturation.specs.Key.{Entry};
ghost use Rattle.spec_attack_runs.specs.Source.{Source, clause_of};
ghost use Rattle.spec_attack_runs.specs.Gathered.{AreSources};
ghost use Rattle.spec_attack_runs.specs.Instance.{ComesFrom};
ghost use Rattle.spec_attack_runs.specs.Compiling.{limited_steps};
ghost use Rattle.spec_attack_runs.specs.Attack.{IsCompiled, IsAttack, Reconstructed};
ghost use Rattle.spec_attack_runs.specs.Example.{gives_away, secret, given_away_log};
ghost use Rattle.spec_attack_runs.specs.Example.{ends_too_soon, begun_before};
ghost use Rattle.spec_attack_runs.specs.Example.{ends_too_soon_log, eight_steps};

/// A translation that is not too large has sources, and each of its clauses is the norm of its source's part, in order.
pub fn sources_stand_beside_clauses()
    ensures some { (P : Protocol) (q : Query) (all : List (Clause Term)) →
        IsTranslation P q (Clauses all) → (sources : List Source) × AreSources P q sources }
    ensures beside { (P : Protocol) (q : Query) (all : List (Clause Term)) (sources : List Source) →
        IsTranslation P q (Clauses all) → AreSources P q sources →
        map clause_of sources ≡ map Some all }
{}

/// The sources of a protocol and a query are one list, whatever new variables and most general unifiers are taken; and so are the
/// instances that an entry of a log comes from.
pub fn sources_and_instances_are_one_list()
    ensures sources { (P : Protocol) (q : Query) (a b : List Source) → AreSources P q a →
        AreSources P q b → a ≡ b }
    ensures instances { (sources : List Source) (log : List Entry) (number : ℕ) (a b : List Source) →
        ComesFrom sources log number a → ComesFrom sources log number b → a ≡ b }
{}

/// An entry has one answer: one attack, or none.
pub fn one_answer()
    ensures { (P : Protocol) (q : Query) (log : List Entry) (number : ℕ) →
        (a b : Option (List Step)) → Reconstructed P q log number a →
        Reconstructed P q log number b → a ≡ b }
{}

/// The steps that an entry is compiled to are those of a run, and none of them is refused.
pub fn compiled_steps_replay()
    ensures { (P : Protocol) (q : Query) (log : List Entry) (number : ℕ) (steps : List Step) →
        IsCompiled P q log number steps → (end : Configuration)
        × (limited_steps P (start P) steps ≡ Some end) × (run P steps ≡ Some end) }
{}

/// A query on which there is an attack does not hold.
pub fn attacks_violate()
    ensures { (P : Protocol) (q : Query) (log : List Entry) (number : ℕ) (steps : List Step) →
        IsAttack P q log number steps → Holds P q → ⊥ }
{}

/// The first worked example: a secret that is sent on a public channel is heard.
pub fn a_given_secret_is_attacked()
    ensures { IsAttack gives_away secret given_away_log 7 (Hear 1 ∷ []) }
{}

/// The second worked example: the second role ends with a name before the first has begun with it, by the eight steps in which
/// the message of the first is heard and said to the second.
pub fn an_end_before_its_beginning_is_attacked()
    ensures { IsAttack ends_too_soon begun_before ends_too_soon_log 14 eight_steps }
{}
