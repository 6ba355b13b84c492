//! Choices of rules for the destructors of an expression, completed part by part: what an evaluation stands on that tries choices with a common
//! beginning together. The definitions stand in `specs/`; the functions here have empty bodies, and say in their contracts what holds of the
//! definitions.
#![tactic(auto)]

ghost use Rattle.std.specs.Prelude.{◌≡◌, ℕ, Option, None, List, [], ◌∷◌, ◌++◌, ◌+◌, length, map, take, drop};
ghost use Rattle.std.specs.List.{AllByRecursion};
ghost use Rattle.spec_trees.specs.Tree.{Leaf, node, bind};
ghost use Rattle.spec_calculus.specs.Syntax.{Symbol, Pattern, Builds, Calls, Expression, Rule, Ruled, Protocol};
ghost use Rattle.spec_calculus.specs.Syntax as calculus;
ghost use Rattle.spec_calculus.specs.Choices.{choices, applications};
ghost use Rattle.spec_terms.specs.Term.{Subst};
ghost use Rattle.spec_clauses.specs.Variables.{AreBelow};
ghost use Rattle.spec_translation.specs.Visit.{Visit, visit_terms};
ghost use Rattle.spec_translation.specs.Choice.{EachGoesOn};
ghost use Rattle.spec_translation.specs.Conversion.{Scope, symbol_over, term_in, rule_term};
ghost use Rattle.spec_translation.specs.Applied.{rule_width, ruled_arguments, ruled_sides};
ghost use Rattle.spec_choice_walks.specs.Instructions.{Instruction, instructions, completions, choices_by, BecomesOne, applied_by};
ghost use Rattle.spec_choice_walks.specs.Labels.{labels_by};
ghost use Rattle.spec_choice_walks.specs.Stage.{terms_of_row, arguments_of_row, sides_of_row, width_of_row, Begins};

/// The choices of an expression are what an empty row becomes by its instructions; there are as many as these tell, and they apply as many
/// destructors.
pub fn choices_by_instructions()
    ensures completed { (P : Protocol) (e : Expression) → completions P (instructions e) [] ≡ map
        (λ c. c.ruled) (choices P e) }
    ensures one { (e : Expression) → BecomesOne 0 (instructions e) }
    ensures counted { (P : Protocol) (parts : List Instruction) (row : List Ruled) →
        BecomesOne (length row) parts → length (completions P parts row) ≡ choices_by P parts }
    ensures applied { (e : Expression) → applied_by (instructions e) ≡ applications e }
{}

/// The labels that the instructions of an expression leave are those of its choices, in order.
pub fn labels_by_instructions()
    ensures { (P : Protocol) (e : Expression) → labels_by P (instructions e) ≡ map
        (λ c. c.rules) (choices P e) }
{}

/// The equations of each completion of a row begin with those of the row: where these have no unifier, none of its completions has.
pub fn completions_begin_alike()
    ensures begin { (P : Protocol) (scope : Scope) (base : ℕ) (parts : List Instruction) (row : List Ruled) →
        BecomesOne (length row) parts → AllByRecursion (λ r. Begins
        (arguments_of_row P scope base row) (sides_of_row P scope base row)
        (ruled_arguments P (term_in P scope) (rule_term P) base r)
        (ruled_sides P (term_in P scope) (rule_term P) base r)) (completions P parts row) }
{}

/// A term behind a row has no equations of its own.
pub fn terms_behind_rows()
    ensures arguments { (P : Protocol) (scope : Scope) (base : ℕ) (row : List Ruled)
        (t : calculus.Term) → arguments_of_row P scope base (row ++ Leaf t ∷ []) ≡
        arguments_of_row P scope base row }
    ensures sides { (P : Protocol) (scope : Scope) (base : ℕ) (row : List Ruled)
        (t : calculus.Term) → sides_of_row P scope base (row ++ Leaf t ∷ []) ≡
        sides_of_row P scope base row }
    ensures terms { (P : Protocol) (scope : Scope) (base : ℕ) (row : List Ruled)
        (t : calculus.Term) → terms_of_row P scope base (row ++ Leaf t ∷ []) ≡
        terms_of_row P scope base row ++ term_in P scope t ∷ [] }
    ensures width { (row : List Ruled) (t : calculus.Term) → width_of_row (row ++ Leaf t ∷ []) ≡
        width_of_row row }
{}

/// A destructor over the last parts of a row adds these parts to the arguments and its rule's left sides to the sides, over variables
/// that are new to the row, and is the rule's right side.
pub fn destructors_over_rows()
    ensures arguments { (P : Protocol) (scope : Scope) (base : ℕ) (xs ys : List Ruled)
        (rule : Rule) → arguments_of_row P scope base (xs ++ node (Calls rule) ys ∷ []) ≡
        arguments_of_row P scope base (xs ++ ys)
        ++ terms_of_row P scope (base + width_of_row xs) ys }
    ensures sides { (P : Protocol) (scope : Scope) (base : ℕ) (xs ys : List Ruled) (rule : Rule) →
        sides_of_row P scope base (xs ++ node (Calls rule) ys ∷ []) ≡
        sides_of_row P scope base (xs ++ ys)
        ++ map (rule_term P (base + width_of_row (xs ++ ys))) rule.left }
    ensures terms { (P : Protocol) (scope : Scope) (base : ℕ) (xs ys : List Ruled) (rule : Rule) →
        terms_of_row P scope base (xs ++ node (Calls rule) ys ∷ []) ≡ terms_of_row P scope base xs
        ++ rule_term P (base + width_of_row (xs ++ ys)) rule.right ∷ [] }
    ensures width { (xs ys : List Ruled) (rule : Rule) →
        width_of_row (xs ++ node (Calls rule) ys ∷ []) ≡ width_of_row (xs ++ ys)
        + rule_width rule }
{}

/// A constructor or a tuple over the last parts of a row adds no equation, and is the symbol over the terms of these parts.
pub fn constructors_over_rows()
    ensures arguments { (P : Protocol) (scope : Scope) (base : ℕ) (xs ys : List Ruled)
        (f : Symbol) → arguments_of_row P scope base (xs ++ node (Builds f) ys ∷ []) ≡
        arguments_of_row P scope base (xs ++ ys) }
    ensures sides { (P : Protocol) (scope : Scope) (base : ℕ) (xs ys : List Ruled)
        (f : Symbol) → sides_of_row P scope base (xs ++ node (Builds f) ys ∷ []) ≡
        sides_of_row P scope base (xs ++ ys) }
    ensures terms { (P : Protocol) (scope : Scope) (base : ℕ) (xs ys : List Ruled)
        (f : Symbol) → terms_of_row P scope base (xs ++ node (Builds f) ys ∷ []) ≡
        terms_of_row P scope base xs ++ node (symbol_over P (length ys) f)
        (terms_of_row P scope (base + width_of_row xs) ys) ∷ [] }
    ensures width { (xs ys : List Ruled) (f : Symbol) →
        width_of_row (xs ++ node (Builds f) ys ∷ []) ≡ width_of_row (xs ++ ys) }
{}

/// How choices go on that stand one behind the other: what is known of two rows of them is known of both together, and of a part.
pub fn ways_in_rows()
    ensures both { (P : Protocol) (v : Visit) (pattern : Pattern) (xs ys : List Ruled)
        (os ps : List (Option Visit)) → EachGoesOn P v pattern xs os →
        EachGoesOn P v pattern ys ps → EachGoesOn P v pattern (xs ++ ys) (os ++ ps) }
    ensures behind { (P : Protocol) (v : Visit) (pattern : Pattern) (n : ℕ) (xs : List Ruled)
        (os : List (Option Visit)) → EachGoesOn P v pattern xs os →
        EachGoesOn P v pattern (drop n xs) (drop n os) }
    ensures before { (P : Protocol) (v : Visit) (pattern : Pattern) (n : ℕ) (xs : List Ruled)
        (os : List (Option Visit)) → EachGoesOn P v pattern xs os →
        EachGoesOn P v pattern (take n xs) (take n os) }
{}

/// Where the equations of a row have no unifier, and it has as many arguments as sides, no completion of it goes on.
pub fn beginnings_are_cut()
    ensures cut { (P : Protocol) (v : Visit) (pattern : Pattern) (base : ℕ) (row : List Ruled) →
        AreBelow base (visit_terms v) → length (arguments_of_row P v.scope base row) ≡
        length (sides_of_row P v.scope base row) → ((s : Subst) →
        map (bind s) (arguments_of_row P v.scope base row) ≡
        map (bind s) (sides_of_row P v.scope base row) → ⊥) →
        (instructions : List Instruction) → BecomesOne (length row) instructions →
        EachGoesOn P v pattern (completions P instructions row)
        (map (λ r. None) (completions P instructions row)) }
{}
