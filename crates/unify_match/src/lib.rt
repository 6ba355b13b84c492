//! Bindings of variables, unification and matching over any bank of terms (Robinson 1965).
#![tactic(auto)]

ghost use Rattle.std.specs.Prelude.{◌≡◌, ℕ, ◌-◌, ◌<◌, Option, Some, None, List, ◌∷◌, IsFalse, length, map, drop};
ghost use Rattle.spec_trees.specs.Tree.{bind};
ghost use Rattle.spec_terms.specs.Term.{Term, Subst, has_var};
ghost use Rattle.spec_terms.specs.Unifier.{IsMostGeneral};
ghost use Rattle.spec_terms.specs.Binding.{AreDistinct, bound_to, Solves, resolved};
ghost use Rattle.term_tree.specs.Bank.{tree_at, Grows};
ghost use Rattle.term_tree.specs.declared.bank.Id.{Id};
ghost use Rattle.unify_match.specs.declared.bound.Bound.{Bound};
ghost use Rattle.unify_match.specs.Trail.{Extends, BindsOnce, id_of};
ghost use Rattle.unify_match.specs.Seen.{seen, AreInBank, AreBindings, IsReady};

mod apply;
pub mod binds;
pub mod bound;
mod matching;
mod memo;
mod rename;
mod substitute;
mod unification;
mod walk;

pub use apply::{apply_bound, apply_unlimited};
pub use binds::Binds;
pub use bound::Bound;
pub use matching::{match_all_onto, match_onto};
pub use rename::{renumbered, shifted};
pub use substitute::argument;
pub use unification::{unify, unify_all};

/// Bindings over the trees of a bank stay what they are as it grows.
pub fn bindings_outlast_growth()
    ensures same { (old new : List Term) (pairs : List Bound) → Grows old new →
        AreInBank old pairs → seen new pairs ≡ seen old pairs }
    ensures ready { (old new : List Term) (pairs : List Bound) → Grows old new → IsReady old pairs →
        IsReady new pairs }
    ensures bindings { (old new : List Term) (pairs : List Bound) → Grows old new →
        AreBindings old pairs → AreBindings new pairs }
{}

/// One more binding: of an unbound variable, to a term of the bank; and for unification to one that stands
/// for no term with this variable.
pub fn one_more_binding()
    ensures bindings { (all : List Term) (b : Bound) (bs : List Bound) → AreBindings all bs →
        id_of bs b.var ≡ None → b.id.index < length all → AreBindings all (b ∷ bs) }
    ensures ready { (all : List Term) (b : Bound) (bs : List Bound) → IsReady all bs →
        id_of bs b.var ≡ None → b.id.index < length all →
        IsFalse (has_var b.var (bind (resolved (seen all bs)) (tree_at all b.id))) →
        IsReady all (b ∷ bs) }
{}

/// Older bindings of bindings: what is left where the newest are taken back.
pub fn older_bindings()
    ensures ready { (all : List Term) (n : ℕ) (pairs : List Bound) → IsReady all pairs →
        IsReady all (drop n pairs) }
    ensures bindings { (all : List Term) (n : ℕ) (pairs : List Bound) → AreBindings all pairs →
        AreBindings all (drop n pairs) }
{}

/// Bindings that bind each variable once do so over any bank, and have the trees of their ids.
pub fn bindings_are_seen_once()
    ensures once { (all : List Term) (pairs : List Bound) → BindsOnce pairs →
        AreDistinct (seen all pairs) }
    ensures bound { (all : List Term) (pairs : List Bound) (x : ℕ) (id : Id) →
        id_of pairs x ≡ Some id → bound_to (seen all pairs) x ≡ Some (tree_at all id) }
    ensures unbound { (all : List Term) (pairs : List Bound) (x : ℕ) → id_of pairs x ≡ None →
        bound_to (seen all pairs) x ≡ None }
    ensures in_bank { (all : List Term) (pairs : List Bound) (x : ℕ) (id : Id) →
        AreInBank all pairs → id_of pairs x ≡ Some id → id.index < length all }
{}

/// What ready bindings stand for is most general among their solutions.
pub fn ready_bindings_are_most_general()
    ensures { (all : List Term) (pairs : List Bound) → IsReady all pairs →
        IsMostGeneral (λ s. Solves s (seen all pairs)) (resolved (seen all pairs)) }
{}

/// Pairs extended in two steps are extended, and undoing to the level of the beginning gives the pairs of
/// the beginning.
pub fn extensions_add_up()
    ensures none { (a : List Bound) → Extends a a }
    ensures twice { (a b c : List Bound) → Extends a b → Extends b c → Extends a c }
    ensures undone { (a b : List Bound) → Extends a b → drop (length b - length a) b ≡ a }
{}
