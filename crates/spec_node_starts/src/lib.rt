//! From where a walk through a node of a table may begin, so that it completes the nodes of the table in their order.
//!
//! A walk through the terms of clauses completes each term behind its arguments. Where it has completed the first nodes of a
//! table and comes to a further one, what it completes there depends on how many are complete. The start of a node is the
//! least number that does: it is reckoned by the starts of the nodes that it stands over, one by one, and each question
//! whether a walk keeps to the order of the table is then one comparison.
//!
//! The definitions stand in `specs/`. The laws about them that a reader would ask for are the contracts of the functions
//! below, which do nothing.
#![tactic(auto)]

ghost use Rattle.std.specs.Prelude.{◌≡◌, ℕ, ◌≤◌, ◌||◌, true, false, nat_le, if◌then◌else◌, List, [], ◌∷◌, ◌++◌, length, take};
ghost use Rattle.std.specs.List.{AllByRecursion, list_any};
ghost use Rattle.spec_terms.specs.Term.{Term};
ghost use Rattle.spec_clauses.specs.Fact.{same_term};
ghost use Rattle.spec_node_tables.specs.Nodes.{TableNode, term_at, term_of};
ghost use Rattle.spec_node_tables.specs.Text.{node_numbers};
ghost use Rattle.spec_node_tables.specs.Order.{IsNumberOf};
ghost use Rattle.spec_node_faults.specs.Clauses.{is_front, completed};
ghost use Rattle.spec_node_starts.specs.Starts.{start_at, start_of};
ghost use Rattle.spec_node_starts.specs.Tables.{HaveStarts};

/// Tables grow node by node: none have starts, and with a node over nodes of the table, whose term is new, and with its start
/// they have them again.
pub fn tables_grow()
    ensures none { HaveStarts [] [] }
    ensures more { (ts : List Term) (starts : List ℕ) (n : TableNode) → HaveStarts ts starts →
        AllByRecursion (IsNumberOf (length ts)) (node_numbers n) →
        list_any (same_term (term_of ts n)) ts ≡ false →
        HaveStarts (ts ++ term_of ts n ∷ [])
        (starts ++ start_of starts (length ts) (node_numbers n) ∷ []) }
{}

/// Where the walk through some terms has completed the first nodes of a table, the walk through a further one keeps to the
/// order exactly where that is complete, or as many are as its start asks for; and then all up to it are.
pub fn starts_tell_the_order()
    ensures order { (ts : List Term) (starts : List ℕ) (seen : List Term) (k n : ℕ) →
        HaveStarts ts starts → completed seen ≡ take k ts → k ≤ length ts →
        1 ≤ n → n ≤ length ts → is_front (completed (seen ++ term_at ts n ∷ [])) ts ≡
        (nat_le n k || nat_le (start_at starts n) k) }
    ensures complete { (ts : List Term) (starts : List ℕ) (seen : List Term) (k n : ℕ) →
        HaveStarts ts starts → completed seen ≡ take k ts → k ≤ length ts →
        1 ≤ n → n ≤ length ts → (nat_le n k || nat_le (start_at starts n) k) ≡ true →
        completed (seen ++ term_at ts n ∷ []) ≡ take (if nat_le n k then k else n) ts }
{}
