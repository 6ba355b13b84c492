//! Terms of clauses, substitutions, unifiers, matches and bindings. The definitions stand in `specs/`; the
//! functions here have empty bodies, and say in their contracts what holds of the definitions.
#![tactic(auto)]

ghost use Rattle.std.specs.Prelude.{◌≡◌, ◌⊎◌, ◌↔◌, ℕ, true, Some, None, Option, List, IsFalse};
ghost use Rattle.spec_trees.specs.Tree.{Leaf, node, bind, after};
ghost use Rattle.spec_terms.specs.Term.{Sym, Term, Subst, has_var, is_ground};
ghost use Rattle.spec_terms.specs.Unifier.{Unifies, UnifiesAll, Factors, IsMostGeneral, IsMgu, IsRenaming, Matches, MatchesAll};
ghost use Rattle.spec_terms.specs.Binding.{Binding, bound_to, NeverLeadsBack, Solves, resolved};

/// Where two terms have a unifier they have a most general one (Robinson 1965), and that is unique up to
/// the names of variables.
pub fn most_general_unifiers()
    ensures exists { (a b : Term) (u : Subst) → Unifies u a b → (s : Subst) × IsMgu a b s }
    ensures unique { (a b : Term) (s t : Subst) → IsMgu a b s → IsMgu a b t → (q r : Subst) ×
        ((x : ℕ) → after q s x ≡ t x) × ((x : ℕ) → after r t x ≡ s x) × IsRenaming s q r }
{}

/// In a term without variables no variable occurs, and no substitution changes it.
pub fn ground_terms_stay()
    ensures none { (t : Term) (x : ℕ) → is_ground t ≡ true → IsFalse (has_var x t) }
    ensures same { (t : Term) (s : Subst) → is_ground t ≡ true → bind s t ≡ t }
{}

/// Whether two terms have a unifier is decided.
pub fn unification_is_decided()
    ensures { (a b : Term) → ((s : Subst) × IsMgu a b s) ⊎ ((s : Subst) → Unifies s a b → ⊥) }
{}

/// Two substitutions that factor through each other are the same up to the names of variables. So whatever
/// is accepted, what is most general among it is unique up to these names.
pub fn most_general_is_unique()
    ensures { (s t : Subst) → Factors t s → Factors s t → (q r : Subst) ×
        ((x : ℕ) → after q s x ≡ t x) × ((x : ℕ) → after r t x ≡ s x) × IsRenaming s q r }
{}

/// A list of equations is one equation, of a symbol over the left sides and over the right ones; so where it
/// has a unifier it has a most general one. Likewise for matching.
pub fn equations_are_one_equation()
    ensures unifiers { (s : Subst) (f : Sym) (xs ys : List Term) →
        UnifiesAll s xs ys ↔ Unifies s (node f xs) (node f ys) }
    ensures matches { (s : Subst) (f : Sym) (xs ys : List Term) →
        MatchesAll s xs ys ↔ Matches s (node f xs) (node f ys) }
    ensures exists { (xs ys : List Term) (u : Subst) → UnifiesAll u xs ys → (s : Subst) ×
        IsMostGeneral (λ r. UnifiesAll r xs ys) s }
{}

/// Whether a term matches onto another is decided.
pub fn matching_is_decided()
    ensures { (general special : Term) → ((s : Subst) × Matches s general special) ⊎
        ((s : Subst) → Matches s general special → ⊥) }
{}

/// What bindings of which none leads back stand for solves them, each solution factors through it, a
/// variable that is not bound stands for itself, and no variable that is bound stands in anything.
pub fn bindings_stand_for_a_solution()
    ensures solves { (bs : List Binding) → NeverLeadsBack bs → Solves (resolved bs) bs }
    ensures most { (bs : List Binding) (s : Subst) → Solves s bs → Factors s (resolved bs) }
    ensures unbound { (bs : List Binding) (x : ℕ) → bound_to bs x ≡ None → resolved bs x ≡ Leaf x }
    ensures bound { (bs : List Binding) → NeverLeadsBack bs → (x : ℕ) (t : Term) →
        bound_to bs x ≡ Some t → (y : ℕ) → IsFalse (has_var x (resolved bs y)) }
{}
