//! The translation of a protocol and a query into clauses. The definitions stand in `specs/`; the functions here
//! have empty bodies, and say in their contracts what holds of the definitions.
#![tactic(auto)]

ghost use Rattle.std.specs.Prelude.{◌≡◌, ℕ, ◌*◌, ◌≤◌, Option, Some, None, List, ◌++◌, false, true, [], ◌∷◌, length, map};
ghost use Rattle.std.specs.List.{AllByRecursion};
ghost use Rattle.spec_trees.specs.Tree.{Leaf, bind};
ghost use Rattle.spec_calculus.specs.Syntax.{Bind, Pattern, Expression, Ruled, Query, Protocol};
ghost use Rattle.spec_calculus.specs.Syntax as calculus;
ghost use Rattle.spec_calculus.specs.Choices.{choices};
ghost use Rattle.spec_calculus.specs.Bounds.{most_arguments, most_symbols, most_points_above};
ghost use Rattle.spec_well_formed.specs.Limits.{IsSmallQuery, IsWithinLimits};
ghost use Rattle.spec_well_formed.specs.Signature.{signature_of};
ghost use Rattle.spec_well_formed.specs.Terms.{EachSymbol, TakesParts};
ghost use Rattle.spec_terms.specs.Term.{Term, Subst};
ghost use Rattle.spec_clauses.specs.Fact.{Clause};
ghost use Rattle.spec_clauses.specs.Shown.{diff_shown};
ghost use Rattle.spec_clauses.specs.Variables.{leaves, fact_variables, all_terms, AreBelow};
ghost use Rattle.spec_clauses.specs.Norm.{IsNormal};
ghost use Rattle.spec_clauses.specs.Limits.{is_large_raw, IsWithinLimit};
ghost use Rattle.spec_clauses.specs.Inclusion.{Has};
ghost use Rattle.spec_translation.specs.Conversion.{Scope, StandsFor, term_in, rule_term};
ghost use Rattle.spec_translation.specs.Visit.{Visit, bound, visit_terms, is_large_visit};
ghost use Rattle.spec_translation.specs.Applied.{ruled_arguments, ruled_sides};
ghost use Rattle.spec_translation.specs.InTerms.{choice_in_terms};
ghost use Rattle.spec_translation.specs.Otherwise.{choice_sides, choice_diff, choice_diffs};
ghost use Rattle.spec_translation.specs.Choice.{ChoiceGoesOn, AllGoOn};
ghost use Rattle.spec_translation.specs.Visited.{some_large};
ghost use Rattle.spec_translation.specs.Translation.{Translated, Clauses, IsTranslation};
ghost use Rattle.spec_translation.specs.Translation.{attacker_clauses, goal_clauses};
ghost use Rattle.spec_translation.specs.Attacker.{attacker_raw};
ghost use Rattle.spec_translation.specs.Goal.{arguments_at, goal_raw};
ghost use Rattle.spec_translation.specs.Satisfied.{is_bad};
ghost use Rattle.spec_translation.specs.Placement.{IsWellPlaced};
ghost use Rattle.spec_translation.specs.Plain.{IsPlain, IsPlainQuery, IsPlainClause, HasNoElse, plain_attacker};

/// A protocol and a query have one translation at most: the same clauses in the same order, or the same point,
/// whatever new variables and most general unifiers are taken.
pub fn one_translation()
    ensures { (P : Protocol) (q : Query) (a b : Translated) →
        IsTranslation P q a → IsTranslation P q b → a ≡ b }
{}

/// Each protocol and query has a translation: new variables are there at each visit, and whether terms have a
/// unifier is decided.
pub fn a_translation()
    ensures { (P : Protocol) (q : Query) → (out : Translated) × IsTranslation P q out }
{}

/// A `let` of a term with a variable for its pattern goes on with the variable bound to the term, and with nothing
/// else of the visit changed.
pub fn plain_lets_bind()
    ensures { (P : Protocol) (v : Visit) (i : ℕ) (t : calculus.Term) →
        ChoiceGoesOn P v (Leaf (Bind i)) (Leaf t) (Some (bound v i (term_in P v.scope t))) }
{}

/// Whether a way of a `let` is too large is the same whatever new variables and most general unifiers are taken; and a choice
/// whose arguments can't become the left sides of its rules doesn't go on.
pub fn lets_go_on_alike()
    ensures large { (P : Protocol) (v : Visit) (pattern : Pattern) (e : Expression) →
        (os ps : List (Option Visit)) → AllGoOn P v pattern e os → AllGoOn P v pattern e ps →
        some_large os ≡ some_large ps }
    ensures nowhere { (P : Protocol) (v : Visit) (pattern : Pattern) (ruled : Ruled) (base : ℕ) →
        AreBelow base (visit_terms v) → ((s : Subst) →
        map (bind s) (ruled_arguments P (term_in P v.scope) (rule_term P) base ruled) ≡
        map (bind s) (ruled_sides P (term_in P v.scope) (rule_term P) base ruled) → ⊥) →
        ChoiceGoesOn P v pattern ruled None }
{}

/// Each clause of a translation is its own norm, and its facts stand where they may: no `bad` among its
/// hypotheses, and no `mev` in its conclusion.
pub fn translations_are_normal()
    ensures normal { (P : Protocol) (q : Query) (all : List (Clause Term)) (c : Clause Term) →
        IsTranslation P q (Clauses all) → Has all c → IsNormal c }
    ensures placed { (P : Protocol) (q : Query) (all : List (Clause Term)) (c : Clause Term) →
        IsTranslation P q (Clauses all) → Has all c → IsWellPlaced c }
{}

/// The last clause of a translation is the goal, and it concludes `bad`; no other clause does.
pub fn translations_have_one_goal()
    ensures last { (P : Protocol) (q : Query) (all : List (Clause Term)) →
        IsTranslation P q (Clauses all) → (before : List (Clause Term)) × (goal : Clause Term)
        × (all ≡ before ++ goal ∷ []) × (goal_clauses P q ≡ goal ∷ [])
        × (is_bad goal.conclusion ≡ true) × AllByRecursion (λ c. is_bad c.conclusion ≡ false)
        before }
    ensures one { (P : Protocol) (q : Query) →
        (goal : Clause Term) × (goal_clauses P q ≡ goal ∷ []) }
{}

/// The limit of size. A translation's clauses are those of the attacker, those of visits, each of which is within
/// the limit, and the goal. Where the protocol and the query are within their own limits, none of the raw clauses
/// of the attacker is large, nor is the goal's, and so each clause of the translation is within the limit.
pub fn translations_are_within_the_limit()
    ensures visits { (P : Protocol) (q : Query) (all : List (Clause Term)) →
        IsTranslation P q (Clauses all) → (visited : List (Clause Term))
        × (all ≡ attacker_clauses P ++ (visited ++ goal_clauses P q))
        × ((c : Clause Term) → Has visited c → IsWithinLimit c) }
    ensures attacker { (P : Protocol) → IsWithinLimits P →
        AllByRecursion (λ raw. is_large_raw raw ≡ false) (attacker_raw P) }
    ensures goal { (P : Protocol) (q : Query) → IsWithinLimits P → IsSmallQuery q →
        is_large_raw (goal_raw P q) ≡ false }
    ensures all { (P : Protocol) (q : Query) (all : List (Clause Term)) (c : Clause Term) →
        IsWithinLimits P → IsSmallQuery q → IsTranslation P q (Clauses all) →
        Has all c → IsWithinLimit c }
{}

/// There are few variables. A restricted name has an argument for each input, each copy and each term of an entry above its
/// restriction, and so no more than points may stand above one, each with the terms of an entry. Of a visit that isn't too
/// large, each term that a variable stands for and each hypothesis has no more occurrences of variables than the limit of size
/// has symbols. Variables of a translation's clauses have numbers below that limit.
pub fn variables_are_few()
    ensures names { (P : Protocol) (point : ℕ) → IsWithinLimits P →
        arguments_at P point ≤ most_arguments * most_points_above }
    ensures scope { (v : Visit) → is_large_visit v ≡ false →
        AllByRecursion (λ (b : StandsFor). length (leaves b.term) ≤ most_symbols) v.scope }
    ensures hypotheses { (v : Visit) → is_large_visit v ≡ false →
        AllByRecursion (λ h. length (fact_variables h) ≤ most_symbols) v.hypotheses }
    ensures clauses { (P : Protocol) (q : Query) (all : List (Clause Term)) (c : Clause Term) →
        IsWithinLimits P → IsSmallQuery q → IsTranslation P q (Clauses all) →
        Has all c → AreBelow most_symbols (all_terms c) }
{}

/// A protocol that waits for no phase and has no use of tables is translated as one without these: the attacker's raw clauses
/// are those of phase 0 alone, and where the query is of phase 0, or about events, so is each fact of each clause, and none is
/// of a table.
pub fn plain_protocols_have_plain_clauses()
    ensures attacker { (P : Protocol) → IsPlain P.main → attacker_raw P ≡ plain_attacker P }
    ensures clauses { (P : Protocol) (q : Query) (all : List (Clause Term)) (c : Clause Term) →
        IsPlain P.main → IsPlainQuery q → IsTranslation P q (Clauses all) → Has all c →
        IsPlainClause c }
{}

/// Where the else branch of each `let` does nothing, no clause of the translation has constraints: else branches alone add some.
pub fn clauses_without_else_have_no_constraints()
    ensures { (P : Protocol) (q : Query) (all : List (Clause Term)) (c : Clause Term) →
        HasNoElse P.main → IsTranslation P q (Clauses all) → Has all c → c.diffs ≡ [] }
{}

/// What excludes the else branch of a `let` is one constraint for each choice of rules, in order, where each destructor of the
/// expression takes as many arguments as its rules have left sides, as in each protocol that was read.
pub fn else_branches_have_a_constraint_for_each_choice()
    ensures { (P : Protocol) (scope : Scope) (pattern : Pattern) (e : Expression) →
        EachSymbol (TakesParts (signature_of P)) e → choice_diffs P scope pattern e
        ≡ map (λ c. choice_diff P scope pattern c.ruled) (choices P e) }
{}

/// The constraint of a choice is told by the terms that are unified for it, where the variables of rules and patterns have the
/// numbers from one on that is above all variables of the scope: the constraint binds these.
pub fn choices_show_constraints()
    ensures { (P : Protocol) (scope : Scope) (first : ℕ) (pattern : Pattern) (ruled : Ruled) →
        AreBelow first (map (λ b. b.term) scope) →
        diff_shown (choice_in_terms P scope first pattern ruled) ≡
        choice_sides P scope pattern ruled }
{}
