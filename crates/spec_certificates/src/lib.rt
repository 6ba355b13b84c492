//! What has to be shown of a query, certificates of closed lists of clauses that show it, and what is ruled of them. The definitions stand in `specs/`; the functions here
//! have empty bodies, and say in their contracts what holds of the definitions.
#![tactic(auto)]

ghost use Rattle.std.specs.Prelude.{◌≡◌, ◌↔◌, ℕ, Some, List, [], ◌∷◌};
ghost use Rattle.spec_calculus.specs.Syntax.{Query, Protocol};
ghost use Rattle.spec_calculus.specs.Runs.{Configuration, run};
ghost use Rattle.spec_calculus.specs.Secrecy.{IsViolated, Holds};
ghost use Rattle.spec_terms.specs.Term.{Term};
ghost use Rattle.spec_clauses.specs.Fact.{Clause};
ghost use Rattle.spec_certificates.specs.Shown.{IsProper, IsPlacedShown, IsShown};
ghost use Rattle.spec_certificates.specs.Announcing.{announced, reversed, announcing, one_copy, performed_by};
ghost use Rattle.spec_certificates.specs.Announcing.{eight_clauses, nine_clauses};
ghost use Rattle.spec_certificates.specs.Certificate.{Certificate, placed_by, selected_numbers};
ghost use Rattle.spec_certificates.specs.Ruling.{Ruling, Accepted, Closure, Goal, IsRuled, IsRuledBy};
ghost use Rattle.spec_certificates.specs.Example.{kept_key, encrypting, one_answer, told, eight, eight_rows};
ghost use Rattle.spec_certificates.specs.Example.{nine_rows, without_row, without_goal};
ghost use Rattle.spec_certificates.specs.Remembering.{kept_secret, remembering, seven, seven_rows};

/// One thing at most is ruled of a certificate: that it is accepted, or the first obligation that fails.
pub fn one_ruling()
    ensures { (P : Protocol) (q : Query) (cert : Certificate) (a b : Ruling) →
        IsRuled P q cert a → IsRuled P q cert b → a ≡ b }
{}

/// The same of one with numbers beside its clauses, whatever they choose.
pub fn one_ruling_by_numbers()
    ensures { (P : Protocol) (q : Query) (cert : Certificate) (numbers : List ℕ) (a b : Ruling) →
        IsRuledBy numbers P q cert a → IsRuledBy numbers P q cert b → a ≡ b }
{}

/// By the numbers of what is selected the same is ruled as by selection.
pub fn selected_numbers_rule_alike()
    ensures { (P : Protocol) (q : Query) (cert : Certificate) (ruling : Ruling) →
        IsRuledBy (selected_numbers cert.clauses) P q cert ruling ↔ IsRuled P q cert ruling }
{}

/// The clauses of an accepted certificate close the translation, and show the query.
pub fn accepted_certificates_show()
    ensures { (P : Protocol) (q : Query) (cert : Certificate) → IsRuled P q cert Accepted →
        (given : List (Clause Term)) × IsShown P q given cert.clauses }
{}

/// So do those of one that is accepted by the numbers beside them.
pub fn accepted_numbers_show()
    ensures { (P : Protocol) (q : Query) (cert : Certificate) (numbers : List ℕ) →
        IsRuledBy numbers P q cert Accepted →
        (given : List (Clause Term)) × IsPlacedShown P q given (placed_by numbers cert.clauses) }
{}

/// A worked example, a secret: each copy encrypts what it is sent under a key. Its certificate, a row for each of eight clauses, is
/// accepted, so its clauses show that the key is kept; and one run makes known what is encrypted under it.
pub fn a_key_is_certified()
    ensures proper { IsProper encrypting kept_key }
    ensures accepted { IsRuled encrypting kept_key eight_rows Accepted }
    ensures shown { IsShown encrypting kept_key eight eight }
    ensures told { (c : Configuration) × (run encrypting one_answer ≡ Some c) × IsViolated told c }
{}

/// A worked example, a correspondence, with a resolvent and a clause that concludes `bad`: its certificate is accepted, and all
/// that is to be shown of the query is so; without its last row it is refused for the resolvent, and without its goal row
/// for the clause that the resolvent is. One run performs both events, so the end doesn't stand before what announces its name.
pub fn names_are_certified()
    ensures proper { IsProper announcing announced }
    ensures accepted { IsRuled announcing announced nine_rows Accepted }
    ensures shown { IsShown announcing announced eight_clauses nine_clauses }
    ensures row_missing { IsRuled announcing announced without_row (Closure 7 8 1) }
    ensures goal_missing { IsRuled announcing announced without_goal (Goal 9) }
    ensures runs { (c : Configuration) × (run announcing one_copy ≡ Some c) ×
        (c.events ≡ performed_by 1 ∷ performed_by 2 ∷ []) }
    ensures reversed { Holds announcing reversed → ⊥ }
{}

/// A worked example, a secret that an else branch sends: the branch runs where an entry of a table is not c, and the one entry is c.
/// Its certificate is accepted, since the clause of the branch has a constraint that the entry never meets.
pub fn an_else_branch_is_certified()
    ensures proper { IsProper remembering kept_secret }
    ensures accepted { IsRuled remembering kept_secret seven_rows Accepted }
    ensures shown { IsShown remembering kept_secret seven seven }
{}
