//! Facts and clauses over terms, and what is done with them: flat, norm, selection, resolution, subsumption.
//! The definitions stand in `specs/`; the functions here have empty bodies, and say in their contracts what
//! holds of the definitions.
#![tactic(auto)]

ghost use Rattle.std.specs.Prelude.{◌≡◌, ◌↔◌, ◌⊎◌, ℕ, ◌+◌, ◌*◌, ◌<◌, ◌≤◌, ◌&&◌, nat_eq, true, false, Some, None};
ghost use Rattle.std.specs.Prelude.{List, [], ◌∷◌, ◌++◌, length, map, flat_map, option_map, slice_get, Contains};
ghost use Rattle.std.specs.List.{AllByRecursion, list_all, range_with_len};
ghost use Rattle.spec_trees.specs.Tree.{Leaf, after, size};
ghost use Rattle.spec_terms.specs.Term.{Sym, Term, Subst, same_symbol};
ghost use Rattle.spec_clauses.specs.Fact.{Fact, Clause, terms_of, clause_terms, map_fact, map_clause, outline, fact_under};
ghost use Rattle.spec_clauses.specs.Fact.{clause_under, total, fact_size, clause_size, same_term, same_terms};
ghost use Rattle.spec_clauses.specs.Fact.{same_fact, is_among};
ghost use Rattle.spec_clauses.specs.Head.{Head, head_of, made_of, same_head, head_size};
ghost use Rattle.spec_clauses.specs.Variables.{fact_variables, clause_variables, constrained_variables};
ghost use Rattle.spec_clauses.specs.Variables.{all_terms, IsBelow, AreBelow};
ghost use Rattle.spec_clauses.specs.Flat.{flat, flat_under, flat_parts, is_flat, is_flat_clause};
ghost use Rattle.spec_clauses.specs.Selection.{Selection, is_solved, select, selection_under, IsFirstOfLargest};
ghost use Rattle.spec_clauses.specs.Inclusion.{Picks, Has, IsWithin};
ghost use Rattle.spec_clauses.specs.Subsumption.{Subsumes, IsCovered, firm, RowHolds, IsFirstRow};
ghost use Rattle.spec_clauses.specs.Kept.{AreMetBy, AreKeptIn};
ghost use Rattle.spec_clauses.specs.Resolvents.{Answer, NoUnifier, Large, Resolvents, IsRawResolvent, Resolves};
ghost use Rattle.spec_clauses.specs.Norm.{norm, norms, distinct, IsNormal, EachRuleKeeps};
ghost use Rattle.spec_clauses.specs.FirstPhase.{IsInFirstPhase, norm_by_counting, EachCountedRuleKeeps};
ghost use Rattle.spec_clauses.specs.Limits.{is_large_clause, is_large_raw, IsWithinLimit};
ghost use Rattle.spec_clauses.specs.Renaming.{renaming, AreVariants, DifferInBound};
ghost use Rattle.spec_clauses.specs.Shown.{Shown, diff_shown, shown_variables, shown_under, TellsApart};
ghost use Rattle.spec_terms.specs.Unifier.{UnifiesAll, IsMostGeneral};
ghost use Rattle.spec_clauses.specs.Diff.{Diff, diff_under, diff_variables, same_diff, IsMetBy, CanBeEqual, IsNeverMet};
ghost use Rattle.spec_clauses.specs.Diff.{numbered_diff, diff_size};
ghost use Rattle.spec_clauses.specs.DiffDecision.{can_be_equal, is_never_met};

/// Equality of symbols, terms, lists of terms and facts is decided by the tests, and so is whether a fact is
/// among others.
pub fn equality_is_decided()
    ensures symbols { (f g : Sym) → (same_symbol f g ≡ true) ↔ (f ≡ g) }
    ensures terms { (t u : Term) → (same_term t u ≡ true) ↔ (t ≡ u) }
    ensures lists { (ts us : List Term) → (same_terms ts us ≡ true) ↔ (ts ≡ us) }
    ensures facts { (f g : Fact Term) → (same_fact f g ≡ true) ↔ (f ≡ g) }
    ensures among { (fs : List (Fact Term)) (f : Fact Term) → (is_among fs f ≡ true) ↔ Has fs f }
{}

/// A fact is its head and its terms in order: it is made again of both, what is done with each term keeps the head, and the
/// test of equality and the size go by the parts.
pub fn facts_are_their_parts<X, Y>()
    ensures made { (f : Fact X) → made_of (head_of f) (terms_of f) ≡ f }
    ensures head { (h : X → Y) (f : Fact X) → head_of (map_fact h f) ≡ head_of f }
    ensures terms { (h : X → Y) (f : Fact X) → terms_of (map_fact h f) ≡ map h (terms_of f) }
    ensures heads { (h k : Head) → (same_head h k ≡ true) ↔ (h ≡ k) }
    ensures same { (f g : Fact Term) → same_fact f g ≡
        (same_head (head_of f) (head_of g) && same_terms (terms_of f) (terms_of g)) }
    ensures size { (f : Fact Term) → fact_size f ≡ head_size (head_of f) + total size (terms_of f) }
{}

/// A function of terms, of each term of a fact or a clause: one after another is their composition, that of each
/// term by itself changes nothing, and only what it makes of the terms at hand counts.
pub fn maps_act_on_clauses<X, Y, Z>()
    ensures facts { (g : Y → Z) (f : X → Y) (h : Fact X) →
        map_fact g (map_fact f h) ≡ map_fact (λ x. g (f x)) h }
    ensures clauses { (g : Y → Z) (f : X → Y) (c : Clause X) →
        map_clause g (map_clause f c) ≡ map_clause (λ x. g (f x)) c }
    ensures same_fact { (h : Fact X) → map_fact (λ x. x) h ≡ h }
    ensures same_clause { (c : Clause X) → map_clause (λ x. x) c ≡ c }
    ensures agree { (f g : X → Y) (c : Clause X) →
        AllByRecursion (λ x. f x ≡ g x) (clause_terms c) → map_clause f c ≡ map_clause g c }
{}

/// Substitution in facts and clauses: one after another is their composition, that of each variable by itself
/// changes nothing, and only what it has for the variables at hand counts.
pub fn substitutions_act_on_clauses()
    ensures facts { (s t : Subst) (h : Fact Term) →
        fact_under s (fact_under t h) ≡ fact_under (after s t) h }
    ensures clauses { (s t : Subst) (c : Clause Term) →
        clause_under s (clause_under t c) ≡ clause_under (after s t) c }
    ensures same_fact { (h : Fact Term) → fact_under Leaf h ≡ h }
    ensures same_clause { (c : Clause Term) → clause_under Leaf c ≡ c }
    ensures agree_fact { (s t : Subst) (h : Fact Term) →
        AllByRecursion (λ x. s x ≡ t x) (fact_variables h) → fact_under s h ≡ fact_under t h }
    ensures agree_clause { (s t : Subst) (c : Clause Term) →
        AllByRecursion (λ x. s x ≡ t x) (clause_variables c) →
        AllByRecursion (λ x. s x ≡ t x) (constrained_variables c) →
        clause_under s c ≡ clause_under t c }
{}

/// A renaming of variables keeps sizes, and renames the variables in their places.
pub fn renamings_keep_sizes()
    ensures facts { (r : ℕ → ℕ) (h : Fact Term) →
        fact_size (fact_under (renaming r) h) ≡ fact_size h }
    ensures clauses { (r : ℕ → ℕ) (c : Clause Term) →
        clause_size (clause_under (renaming r) c) ≡ clause_size c }
    ensures variables { (r : ℕ → ℕ) (c : Clause Term) →
        clause_variables (clause_under (renaming r) c) ≡ map r (clause_variables c) }
{}

/// The flat of a fact, or of facts, under a substitution is the flat of their flat under it.
pub fn flat_goes_through_substitutions()
    ensures fact { (s : Subst) (f : Fact Term) → flat_under s (flat f) ≡ flat (fact_under s f) }
    ensures facts { (s t : Subst) (fs : List (Fact Term)) →
        flat_under s (flat_under t fs) ≡ flat_under (after s t) fs }
{}

/// The flat of a fact is flat, and has the fact's variables in the same places; flat facts are their own flat.
/// The flat parts of a clause are flat, and a flat clause is its own, one flat part.
pub fn flat_gives_what_is_flat()
    ensures flat { (f : Fact Term) → list_all is_flat (flat f) ≡ true }
    ensures variables { (f : Fact Term) → flat_map fact_variables (flat f) ≡ fact_variables f }
    ensures own { (fs : List (Fact Term)) → list_all is_flat fs ≡ true → flat_map flat fs ≡ fs }
    ensures parts { (c part : Clause Term) → Has (flat_parts c) part → is_flat_clause part ≡ true }
    ensures own_part { (c : Clause Term) → is_flat_clause c ≡ true → flat_parts c ≡ c ∷ [] }
{}

/// How many flat facts and flat parts there are, and how large: none of these facts is larger than the fact that
/// they come of, and all of them together have at most twice its size.
pub fn flat_sizes_are_bounded()
    ensures number { (f : Fact Term) → length (flat f) ≤ fact_size f }
    ensures each { (f part : Fact Term) → Has (flat f) part → fact_size part ≤ fact_size f }
    ensures all { (f : Fact Term) → total fact_size (flat f) ≤ 2 * fact_size f }
    ensures parts { (c : Clause Term) → length (flat_parts c) ≤ clause_size c }
    ensures part { (c part : Clause Term) →
        Has (flat_parts c) part → clause_size part ≤ 2 * clause_size c }
{}

/// The limit of size: a clause that isn't large is within it; so are all parts of a raw clause that isn't, and the
/// norms that it gives.
pub fn what_is_not_large_is_within_the_limit()
    ensures clause { (c : Clause Term) → (is_large_clause c ≡ false) ↔ IsWithinLimit c }
    ensures raw { (c : Clause Term) →
        (is_large_raw c ≡ false) ↔ (IsWithinLimit c × AllByRecursion IsWithinLimit (flat_parts c)) }
    ensures norms { (c d : Clause Term) →
        is_large_raw c ≡ false → Has (norms c) d → IsWithinLimit d }
{}

/// A norm is its own norm, and flat where its clause is: so each norm of a clause's flat parts is flat and its
/// own norm. A clause is its own norm exactly where each rule by itself leaves it as it is, and of clauses that are
/// instances of each other only one is.
pub fn norms_are_normal()
    ensures own { (c d : Clause Term) → norm c ≡ Some d → norm d ≡ Some d }
    ensures flat { (c d : Clause Term) →
        is_flat_clause c ≡ true → norm c ≡ Some d → is_flat_clause d ≡ true }
    ensures norms { (c d : Clause Term) → Has (norms c) d → IsNormal d }
    ensures normal { (c : Clause Term) → IsNormal c → norms c ≡ c ∷ [] }
    ensures rules { (c : Clause Term) → (norm c ≡ Some c) ↔ EachRuleKeeps c }
    ensures one { (c d : Clause Term) →
        norm c ≡ Some c → norm d ≡ Some d → AreVariants c d → c ≡ d }
{}

/// A clause has no norm exactly where its conclusion is one of its hypotheses, or no substitution meets one of its
/// constraints. Its norm is no larger, has a conclusion of the same outline, some of its hypotheses, renamed, some of its
/// constraints, renamed and numbered, and variables that are numbered from 0 on by their first occurrence in its facts, and
/// so below its size.
pub fn norms_keep_what_clauses_say()
    ensures none { (c : Clause Term) → (norm c ≡ None) ↔
        (Has c.hypotheses c.conclusion ⊎ ((d : Diff) × Has c.diffs d × IsNeverMet d)) }
    ensures size { (c d : Clause Term) → norm c ≡ Some d → clause_size d ≤ clause_size c }
    ensures conclusion { (c d : Clause Term) →
        norm c ≡ Some d → outline d.conclusion ≡ outline c.conclusion }
    ensures hypotheses { (c d : Clause Term) → norm c ≡ Some d →
        (r : ℕ → ℕ) × IsWithin d.hypotheses (map (fact_under (renaming r)) c.hypotheses) }
    ensures constraints { (c d : Clause Term) → norm c ≡ Some d → (r : ℕ → ℕ) ×
        IsWithin d.diffs (map (λ e. numbered_diff (diff_under (renaming r) e)) c.diffs) }
    ensures numbers { (c d : Clause Term) → norm c ≡ Some d →
        (n : ℕ) × (distinct nat_eq (clause_variables d) ≡ range_with_len 0 n) }
    ensures below { (c d : Clause Term) →
        norm c ≡ Some d → AreBelow (clause_size d) (all_terms d) }
{}

/// In the first phase, where there are no constraints, a hypothesis `att` of a variable is dropped exactly where that
/// is the variable's one occurrence, and each solved clause that concludes `att` of a variable says that everything is
/// known: the norm is the one that counts, and a clause is its own norm exactly where each of the rules that count leaves it
/// as it is.
pub fn clauses_of_the_first_phase_are_normed_by_counting()
    ensures norm { (c : Clause Term) → IsInFirstPhase c → norm c ≡ norm_by_counting c }
    ensures rules { (c : Clause Term) →
        IsInFirstPhase c → (norm c ≡ Some c) ↔ EachCountedRuleKeeps c }
{}

/// Being instances of each other is an equivalence of clauses.
pub fn variants_are_an_equivalence()
    ensures reflexive { (c : Clause Term) → AreVariants c c }
    ensures symmetric { (c d : Clause Term) → AreVariants c d → AreVariants d c }
    ensures transitive { (a b c : Clause Term) → AreVariants a b → AreVariants b c →
        AreVariants a c }
{}

/// Clauses that are instances of each other differ in the names of variables alone: they have the same norm,
/// their flat parts have the same norms, and they have the same size and are large alike.
pub fn variants_have_the_same_norms()
    ensures norm { (c d : Clause Term) → AreVariants c d → norm c ≡ norm d }
    ensures norms { (c d : Clause Term) → AreVariants c d → norms c ≡ norms d }
    ensures size { (c d : Clause Term) → AreVariants c d → clause_size c ≡ clause_size d }
    ensures large { (c d : Clause Term) → AreVariants c d → is_large_raw c ≡ is_large_raw d }
{}

/// Whether the sides of a constraint can be equal, whether no substitution meets it, and whether two constraints are the
/// same, is decided by the tests.
pub fn constraints_are_tested()
    ensures equal { (d : Diff) → (can_be_equal d ≡ true) ↔ CanBeEqual d }
    ensures never { (d : Diff) → (is_never_met d ≡ true) ↔ IsNeverMet d }
    ensures same { (d e : Diff) → (same_diff d e ≡ true) ↔ (d ≡ e) }
{}

/// Where the sides of a constraint can't be equal, each substitution meets it; where terms for its bound variables alone
/// make them equal, none does.
pub fn constraints_keep_sides_apart()
    ensures apart { (d : Diff) (s : Subst) → can_be_equal d ≡ false → IsMetBy s d }
    ensures never { (d : Diff) (s : Subst) → is_never_met d ≡ true → IsMetBy s d → ⊥ }
{}

/// Substitution in constraints: one after another is their composition, that of each variable by itself changes nothing,
/// and only what it has for the clause's variables at hand counts. A constraint under a substitution is met by another
/// exactly where it is met by both, one after the other.
pub fn substitutions_act_on_constraints()
    ensures composed { (s t : Subst) (d : Diff) →
        diff_under s (diff_under t d) ≡ diff_under (after s t) d }
    ensures same { (d : Diff) → diff_under Leaf d ≡ d }
    ensures agree { (s t : Subst) (d : Diff) →
        AllByRecursion (λ x. s x ≡ t x) (diff_variables d) → diff_under s d ≡ diff_under t d }
    ensures met { (r s : Subst) (d : Diff) → IsMetBy r (diff_under s d) ↔ IsMetBy (after r s) d }
{}

/// The numbering of a constraint's bound variables: it keeps what the constraint says, done twice it is done once, it goes
/// through substitutions, and neither size nor the clause's variables change.
pub fn constraints_are_numbered()
    ensures once { (d : Diff) → numbered_diff (numbered_diff d) ≡ numbered_diff d }
    ensures under { (s : Subst) (d : Diff) →
        numbered_diff (diff_under s d) ≡ diff_under s (numbered_diff d) }
    ensures met { (s : Subst) (d : Diff) → IsMetBy s (numbered_diff d) ↔ IsMetBy s d }
    ensures equal { (d : Diff) → can_be_equal (numbered_diff d) ≡ can_be_equal d }
    ensures never { (d : Diff) → is_never_met (numbered_diff d) ≡ is_never_met d }
    ensures size { (d : Diff) → diff_size (numbered_diff d) ≡ diff_size d }
    ensures variables { (d : Diff) → diff_variables (numbered_diff d) ≡ diff_variables d }
{}

/// A renaming of the clause's variables that has a way back from those of a constraint: the tests answer the same, the size
/// stays, and the variables are renamed in their places.
pub fn renamings_keep_constraints()
    ensures equal { (q r : ℕ → ℕ) (d : Diff) → AllByRecursion (λ x. q (r x) ≡ x)
        (diff_variables d) → can_be_equal (diff_under (renaming r) d) ≡ can_be_equal d }
    ensures never { (q r : ℕ → ℕ) (d : Diff) → AllByRecursion (λ x. q (r x) ≡ x)
        (diff_variables d) → is_never_met (diff_under (renaming r) d) ≡ is_never_met d }
    ensures size { (r : ℕ → ℕ) (d : Diff) → diff_size (diff_under (renaming r) d) ≡ diff_size d }
    ensures variables { (r : ℕ → ℕ) (d : Diff) →
        diff_variables (diff_under (renaming r) d) ≡ map r (diff_variables d) }
{}

/// Clauses that differ in the numbers of the variables that constraints bind alone have the same norm, and their flat parts
/// have the same norms.
pub fn norms_ignore_bound_numbers()
    ensures norm { (c d : Clause Term) → DifferInBound c d → norm c ≡ norm d }
    ensures norms { (c d : Clause Term) → DifferInBound c d → norms c ≡ norms d }
{}

/// Constraints written in terms, where from a number on variables are bound ones. Under a substitution, with bound variables
/// above all that it puts in, such terms are the constraint under it; the sides can be equal exactly where the lists of terms
/// unify; and the constraint is never met exactly where a most general unifier of these has a variable for each of the
/// clause's variables, and different ones.
pub fn constraints_are_written_in_terms()
    ensures under { (s : Subst) (next : ℕ) (d : Shown) →
        AllByRecursion (λ x. x < d.first → IsBelow next (s x)) (shown_variables d) →
        diff_shown (shown_under s next d) ≡ diff_under s (diff_shown d) }
    ensures equal { (d : Shown) →
        CanBeEqual (diff_shown d) ↔ ((s : Subst) × UnifiesAll s d.left d.right) }
    ensures never { (s : Subst) (d : Shown) →
        IsMostGeneral (λ r. UnifiesAll r d.left d.right) s →
        IsNeverMet (diff_shown d) ↔ TellsApart s d }
{}

/// Selection takes the first of the largest hypotheses that can be selected, and nothing exactly where none can.
pub fn the_first_of_the_largest_is_selected()
    ensures none { (hs : List (Fact Term)) → (select hs ≡ None) ↔ (is_solved hs ≡ true) }
    ensures largest { (hs : List (Fact Term)) (at : Selection) →
        (select hs ≡ Some at) ↔ IsFirstOfLargest hs at }
    ensures place { (hs : List (Fact Term)) (at : Selection) →
        select hs ≡ Some at → slice_get hs at.index ≡ Some at.fact }
    ensures picked { (hs : List (Fact Term)) (at : Selection) →
        select hs ≡ Some at → Picks hs at.fact at.others }
{}

/// Selection doesn't depend on how variables are numbered.
pub fn selection_ignores_numbers()
    ensures { (r : ℕ → ℕ) (hs : List (Fact Term)) →
        select (map (fact_under (renaming r)) hs) ≡
        option_map (selection_under (renaming r)) (select hs) }
{}

/// Inclusion is reflexive and transitive; two included lists are included side by side; and what is picked out
/// of an included list is picked out of the other, which still includes the rest.
pub fn inclusion_is_an_order<X>()
    ensures reflexive { (xs : List X) → IsWithin xs xs }
    ensures transitive { (xs ys zs : List X) → IsWithin xs ys → IsWithin ys zs → IsWithin xs zs }
    ensures both { (xs ys us vs : List X) →
        IsWithin xs us → IsWithin ys vs → IsWithin (xs ++ ys) (us ++ vs) }
    ensures picked { (x : X) (ys rest zs : List X) →
        Picks ys x rest → IsWithin ys zs → (left : List X) × Picks zs x left × IsWithin rest left }
{}

/// Inclusion is kept by functions of items.
pub fn inclusion_is_kept<X, Y>()
    ensures map { (f : X → Y) (xs ys : List X) → IsWithin xs ys → IsWithin (map f xs) (map f ys) }
    ensures flat_map { (f : X → List Y) (xs ys : List X) →
        IsWithin xs ys → IsWithin (flat_map f xs) (flat_map f ys) }
{}

/// What lists have: what stands at an index; in two lists what one of them has; in lists that are made of items
/// what is made of one of these; and in an including list what the included one has.
pub fn lists_have_their_items<X, Y>()
    ensures index { (xs : List X) (x : X) → Has xs x ↔ Contains xs x }
    ensures both { (xs ys : List X) (x : X) → Has (xs ++ ys) x ↔ (Has xs x ⊎ Has ys x) }
    ensures made { (f : X → List Y) (xs : List X) (y : Y) →
        Has (flat_map f xs) y ↔ ((x : X) × Has xs x × Has (f x) y) }
    ensures included { (xs ys : List X) (x : X) → IsWithin xs ys → Has xs x → Has ys x }
{}

/// Subsumption is reflexive on flat clauses that are their own norms, and transitive.
pub fn subsumption_is_an_order()
    ensures reflexive { (c : Clause Term) → IsNormal c → Subsumes c c }
    ensures transitive { (a b c : Clause Term) → Subsumes a b → Subsumes b c → Subsumes a c }
{}

/// Constraints that are kept under a substitution are met by it and another one after it where those that keep them are
/// met by that other. Numbered constraints keep themselves, and keeping is transitive.
pub fn kept_constraints_are_met()
    ensures met { (diffs general : List Diff) (r s : Subst) → AreMetBy r diffs →
        AreKeptIn diffs s general → AreMetBy (after r s) general }
    ensures reflexive { (diffs : List Diff) → AllByRecursion (λ d. numbered_diff d ≡ d) diffs →
        AreKeptIn diffs Leaf diffs }
    ensures transitive { (general middle diffs : List Diff) (s t : Subst) →
        AreKeptIn middle s general → AreKeptIn diffs t middle →
        AreKeptIn diffs (after t s) general }
{}

/// A clause with flat hypotheses subsumes another exactly where some row holds. A row that holds has a position
/// for each hypothesis but `att` of a variable, and there is no more than one first row.
pub fn rows_show_subsumption()
    ensures rows { (general special : Clause Term) → list_all is_flat general.hypotheses ≡ true →
        Subsumes general special ↔ ((row : List ℕ) × RowHolds general special row) }
    ensures positions { (general special : Clause Term) (row : List ℕ) →
        RowHolds general special row → length row ≡ length (firm general.hypotheses) }
    ensures first { (general special : Clause Term) (row other : List ℕ) →
        IsFirstRow general special row → IsFirstRow general special other → row ≡ other }
{}

/// What a covered clause subsumes is covered, and what is covered stays so where all that covered it is.
pub fn covering_is_kept()
    ensures subsumed { (clauses : List (Clause Term)) (c d : Clause Term) →
        IsCovered clauses c → Subsumes c d → IsCovered clauses d }
    ensures covered { (clauses others : List (Clause Term)) (c : Clause Term) →
        ((d : Clause Term) → Has clauses d → IsCovered others d) →
        IsCovered clauses c → IsCovered others c }
    ensures grown { (clauses others : List (Clause Term)) (c : Clause Term) →
        ((d : Clause Term) → Has clauses d → Has others d) →
        IsCovered clauses c → IsCovered others c }
{}

/// A pair of clauses and a selected hypothesis have an answer, and have one alone, whatever numbers set the
/// variables apart and whatever most general unifier is taken. It is that the facts have no unifier; that the raw
/// resolvent is over the limit of size; or the norms of the raw resolvent's flat parts.
pub fn resolvents_are_one_list()
    ensures some { (solved unsolved : Clause Term) (at : Selection) →
        (answer : Answer) × Resolves solved unsolved at answer }
    ensures one { (solved unsolved : Clause Term) (at : Selection) (a b : Answer) →
        Resolves solved unsolved at a → Resolves solved unsolved at b → a ≡ b }
    ensures none { (solved unsolved : Clause Term) (at : Selection) →
        IsRawResolvent solved unsolved at None → Resolves solved unsolved at NoUnifier }
    ensures large { (solved unsolved raw : Clause Term) (at : Selection) →
        IsRawResolvent solved unsolved at (Some raw) → is_large_raw raw ≡ true →
        Resolves solved unsolved at Large }
    ensures clauses { (solved unsolved raw : Clause Term) (at : Selection) →
        IsRawResolvent solved unsolved at (Some raw) → is_large_raw raw ≡ false →
        Resolves solved unsolved at (Resolvents (norms raw)) }
{}
