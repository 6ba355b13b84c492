//! Placing the hypotheses of a general clause on positions of a special one: what the search of rows rests on.
//! The definitions stand in `specs/`; the functions here have empty bodies, and say in their contracts what
//! holds of the definitions. Positions count from 0 here, and from 1 in rows of clauses.
#![tactic(auto)]

ghost use Rattle.std.specs.Prelude.{◌≡◌, ◌↔◌, ℕ, suc, ◌+◌, ◌<◌, Bool, true, false, ◌||◌, cond};
ghost use Rattle.std.specs.Prelude.{is_some, Some, get_or, set, slice_get};
ghost use Rattle.std.specs.Prelude.{List, [], ◌∷◌, ◌++◌, length, map, flat_map, replicate, remove, insert};
ghost use Rattle.std.specs.List.{list_any};
ghost use Rattle.spec_terms.specs.Term.{Term, Subst, has_var};
ghost use Rattle.spec_terms.specs.Unifier.{MatchesAll};
ghost use Rattle.spec_terms.specs.Binding.{Binding, bound_to, AreDistinct, Agrees, replaced_once};
ghost use Rattle.spec_clauses.specs.Fact.{Fact, Clause, terms_of, outline, fact_under};
ghost use Rattle.spec_clauses.specs.Diff.{Diff, diff_variables};
ghost use Rattle.spec_clauses.specs.Norm.{norm, IsNormal};
ghost use Rattle.spec_clauses.specs.Inclusion.{Picks, IsWithin};
ghost use Rattle.spec_clauses.specs.Subsumption.{firm, loose, RowHolds, IsFirstRow};
ghost use Rattle.spec_placements.specs.Takes.{left, Takes};
ghost use Rattle.spec_placements.specs.Placing.{Loose, loose_variables, all_known, variables_of, linked_variables};
ghost use Rattle.spec_placements.specs.Placing.{Ending, ending_of, AreKept, FactMatched, NoFactMatch};
ghost use Rattle.spec_placements.specs.Placing.{CanPlace, CanStand, HoldsFrom, IsFirstFrom};
ghost use Rattle.spec_placements.specs.Placing.{AreLinked, IsLinked};
ghost use Rattle.spec_placements.specs.Stages.{Stage, PlacesOn, PlacesFirst};
ghost use Rattle.spec_placements.specs.LooseParts.{bound_parts, Removes, Lacks, HasNoRoom};
ghost use Rattle.spec_placements.specs.Crowds.{room, IsConfined, AreConfined};

/// The loose hypotheses are `att` of the loose variables, in order.
pub fn loose_hypotheses_are_variables()
    ensures { (hs : List (Fact Term)) → loose hs ≡ all_known (loose_variables hs) }
{}

/// A row of free positions takes facts, and further ones stand elsewhere, for some row exactly where all of them
/// together are included in what is left. A fact is taken at any place of a row, with its position there.
pub fn rows_take_what_is_left()
    ensures included { (hs ys more : List (Fact Term)) (flags : List Bool) (row : List ℕ) →
        length flags ≡ length hs → Takes hs flags ys row more →
        IsWithin (ys ++ more) (left flags hs) }
    ensures taken { (hs ys more : List (Fact Term)) (flags : List Bool) →
        length flags ≡ length hs → IsWithin (ys ++ more) (left flags hs) →
        (row : List ℕ) × Takes hs flags ys row more }
    ensures inserted { (hs ys more : List (Fact Term)) (flags : List Bool) (row : List ℕ) (at p : ℕ)
        (y : Fact Term) → p < length flags → slice_get ys at ≡ Some y →
        get_or flags p false ≡ false → slice_get hs p ≡ Some y →
        Takes hs (set flags p true) (remove ys at) row more →
        Takes hs flags ys (insert row at p) more }
    ensures removed { (hs ys more : List (Fact Term)) (flags : List Bool) (row : List ℕ) (at : ℕ)
        (y : Fact Term) → length flags ≡ length hs → slice_get ys at ≡ Some y →
        Takes hs flags ys row more → (p : ℕ) × (slice_get row at ≡ Some p) ×
        Takes hs flags (y ∷ remove ys at) (p ∷ remove row at) more }
    ensures others { (hs ys more : List (Fact Term)) (flags : List Bool) (row : List ℕ) →
        length flags ≡ length hs → Takes hs flags ys row more → IsWithin more (left flags hs) }
{}

/// A row of a clause that holds counts its positions from 1. Counted from 0 they place the firm hypotheses, and leave
/// room for the loose ones, under the bindings that the match of the conclusions gives, exactly where the row holds;
/// and they are the first that do exactly where it is the first row.
pub fn rows_are_placed()
    ensures inner { (general special : Clause Term) (row : List ℕ) →
        RowHolds general special row → (inner : List ℕ) × (row ≡ map suc inner) }
    ensures rows { (bs : List Binding) (general special : Clause Term) (row : List ℕ) →
        FactMatched [] bs general.conclusion special.conclusion →
        RowHolds general special (map suc row) ↔
        HoldsFrom bs (replicate (length special.hypotheses) false) special.hypotheses
        (firm general.hypotheses) (ending_of general special) row }
    ensures first { (bs : List Binding) (general special : Clause Term) (row : List ℕ) →
        FactMatched [] bs general.conclusion special.conclusion →
        IsFirstRow general special (map suc row) ↔
        IsFirstFrom bs (replicate (length special.hypotheses) false) special.hypotheses
        (firm general.hypotheses) (ending_of general special) row }
    ensures unmatched { (general special : Clause Term) (row : List ℕ) →
        NoFactMatch [] general.conclusion special.conclusion → RowHolds general special row → ⊥ }
    ensures unplaced { (bs : List Binding) (general special : Clause Term) (row : List ℕ) →
        FactMatched [] bs general.conclusion special.conclusion →
        (CanPlace bs (replicate (length special.hypotheses) false) special.hypotheses
        (firm general.hypotheses) (ending_of general special) → ⊥) →
        RowHolds general special row → ⊥ }
{}

/// A fact that was matched with what stands at a free position can stand there exactly where the others can be placed
/// then. It can stand at no position that is taken or out of range, nor where it doesn't match. And all unplaced facts
/// can be placed exactly where one of them, whichever it is, can stand somewhere.
pub fn all_are_placed_where_one_stands()
    ensures matched { (old new : List Binding) (taken : List Bool) (hs rest : List (Fact Term))
        (g h : Fact Term) (ending : Ending) (p : ℕ) → get_or taken p false ≡ false →
        slice_get hs p ≡ Some h → FactMatched old new g h →
        CanStand old taken hs g rest ending p ↔ CanPlace new (set taken p true) hs rest ending }
    ensures unmatched { (bs : List Binding) (taken : List Bool) (hs rest : List (Fact Term))
        (g h : Fact Term) (ending : Ending) (p : ℕ) → slice_get hs p ≡ Some h →
        NoFactMatch bs g h →
        CanStand bs taken hs g rest ending p → ⊥ }
    ensures occupied { (bs : List Binding) (taken : List Bool) (hs rest : List (Fact Term))
        (g : Fact Term) (ending : Ending) (p : ℕ) → get_or taken p false ≡ true →
        CanStand bs taken hs g rest ending p → ⊥ }
    ensures range { (bs : List Binding) (taken : List Bool) (hs rest : List (Fact Term))
        (g : Fact Term) (ending : Ending) (p : ℕ) →
        CanStand bs taken hs g rest ending p → p < length hs }
    ensures some { (bs : List Binding) (taken : List Bool) (hs unplaced rest : List (Fact Term))
        (g : Fact Term) (ending : Ending) → length taken ≡ length hs → Picks unplaced g rest →
        CanPlace bs taken hs unplaced ending → (p : ℕ) × CanStand bs taken hs g rest ending p }
    ensures none { (bs : List Binding) (taken : List Bool) (hs unplaced rest : List (Fact Term))
        (g : Fact Term) (ending : Ending) → length taken ≡ length hs → Picks unplaced g rest →
        ((p : ℕ) → p < length hs → CanStand bs taken hs g rest ending p → ⊥) →
        CanPlace bs taken hs unplaced ending → ⊥ }
    ensures placed { (bs : List Binding) (taken : List Bool) (hs unplaced rest : List (Fact Term))
        (g : Fact Term) (ending : Ending) (p : ℕ) → length taken ≡ length hs →
        Picks unplaced g rest → CanStand bs taken hs g rest ending p →
        CanPlace bs taken hs unplaced ending }
    ensures removed { (unplaced : List (Fact Term)) (at : ℕ) (g : Fact Term) →
        slice_get unplaced at ≡ Some g → Picks unplaced g (remove unplaced at) }
{}

/// Facts of one outline have as many terms, and match where these do, item by item. Facts of different outlines don't.
pub fn facts_match_term_by_term()
    ensures terms { (s : Subst) (g h : Fact Term) → outline g ≡ outline h →
        (fact_under s g ≡ h) ↔ MatchesAll s (terms_of g) (terms_of h) }
    ensures number { (g h : Fact Term) → outline g ≡ outline h →
        length (terms_of g) ≡ length (terms_of h) }
    ensures matched { (old new : List Binding) (g h : Fact Term) → outline g ≡ outline h →
        ((x : ℕ) → is_some (bound_to new x) ≡
        (is_some (bound_to old x) || list_any (has_var x) (terms_of g))) →
        ((s : Subst) → Agrees s new ↔ (Agrees s old × MatchesAll s (terms_of g) (terms_of h))) →
        FactMatched old new g h }
    ensures unmatched { (bs : List Binding) (g h : Fact Term) →
        ((s : Subst) → Agrees s bs → MatchesAll s (terms_of g) (terms_of h) → ⊥) →
        NoFactMatch bs g h }
    ensures different { (bs : List Binding) (g h : Fact Term) → (outline g ≡ outline h → ⊥) →
        NoFactMatch bs g h }
{}

/// Facts can be placed exactly where some row of positions holds them. A row has a position for each; with no fact
/// there is the empty one; and one more fact, at the front or at any place, has its position there.
pub fn rows_hold_what_is_placed()
    ensures some { (bs : List Binding) (taken : List Bool) (hs unplaced : List (Fact Term))
        (ending : Ending) → length taken ≡ length hs → CanPlace bs taken hs unplaced ending →
        (row : List ℕ) × HoldsFrom bs taken hs unplaced ending row }
    ensures placed { (bs : List Binding) (taken : List Bool) (hs unplaced : List (Fact Term))
        (ending : Ending) (row : List ℕ) → length taken ≡ length hs →
        HoldsFrom bs taken hs unplaced ending row →
        CanPlace bs taken hs unplaced ending }
    ensures stands { (bs : List Binding) (taken : List Bool) (hs rest : List (Fact Term))
        (g : Fact Term) (ending : Ending) (row : List ℕ) (p : ℕ) → length taken ≡ length hs →
        HoldsFrom bs taken hs (g ∷ rest) ending (p ∷ row) → CanStand bs taken hs g rest ending p }
    ensures positions { (bs : List Binding) (taken : List Bool) (hs unplaced : List (Fact Term))
        (ending : Ending) (row : List ℕ) → HoldsFrom bs taken hs unplaced ending row →
        length row ≡ length unplaced }
    ensures nothing { (bs : List Binding) (taken : List Bool) (hs : List (Fact Term))
        (ending : Ending) → CanPlace bs taken hs [] ending → HoldsFrom bs taken hs [] ending [] }
    ensures one { (old new : List Binding) (taken : List Bool) (hs rest : List (Fact Term))
        (g h : Fact Term) (ending : Ending) (row : List ℕ) (p : ℕ) →
        get_or taken p false ≡ false →
        slice_get hs p ≡ Some h → FactMatched old new g h →
        HoldsFrom old taken hs (g ∷ rest) ending (p ∷ row) ↔
        HoldsFrom new (set taken p true) hs rest ending row }
    ensures inserted { (old new : List Binding) (taken : List Bool) (hs unplaced : List (Fact Term))
        (g h : Fact Term) (ending : Ending) (row : List ℕ) (at p : ℕ) →
        length taken ≡ length hs →
        slice_get unplaced at ≡ Some g → get_or taken p false ≡ false →
        slice_get hs p ≡ Some h → FactMatched old new g h →
        HoldsFrom new (set taken p true) hs (remove unplaced at) ending row →
        HoldsFrom old taken hs unplaced ending (insert row at p) }
    ensures front { (bs : List Binding) (taken : List Bool) (hs unplaced : List (Fact Term))
        (g : Fact Term) (ending : Ending) (row : List ℕ) (at : ℕ) → length taken ≡ length hs →
        slice_get unplaced at ≡ Some g → HoldsFrom bs taken hs unplaced ending row →
        (p : ℕ) × (slice_get row at ≡ Some p) ×
        HoldsFrom bs taken hs (g ∷ remove unplaced at) ending (p ∷ remove row at) }
    ensures back { (bs : List Binding) (taken : List Bool) (hs unplaced : List (Fact Term))
        (g : Fact Term) (ending : Ending) (row : List ℕ) (at p : ℕ) → length taken ≡ length hs →
        slice_get unplaced at ≡ Some g →
        HoldsFrom bs taken hs (g ∷ remove unplaced at) ending (p ∷ row) →
        HoldsFrom bs taken hs unplaced ending (insert row at p) }
{}

/// The first row begins with the least position at which the first fact can stand, and goes on with the first row of
/// the others from there. With no fact it is the empty one.
pub fn first_rows_begin_with_the_least_stand()
    ensures nothing { (bs : List Binding) (taken : List Bool) (hs : List (Fact Term))
        (ending : Ending) → CanPlace bs taken hs [] ending → IsFirstFrom bs taken hs [] ending [] }
    ensures one { (old new : List Binding) (taken : List Bool) (hs rest : List (Fact Term))
        (g h : Fact Term) (ending : Ending) (row : List ℕ) (p : ℕ) → length taken ≡ length hs →
        get_or taken p false ≡ false → slice_get hs p ≡ Some h → FactMatched old new g h →
        ((q : ℕ) → q < p → CanStand old taken hs g rest ending q → ⊥) →
        IsFirstFrom new (set taken p true) hs rest ending row →
        IsFirstFrom old taken hs (g ∷ rest) ending (p ∷ row) }
{}

/// Facts are placed one after another along a row, which holds, or is the first, where what follows does. With no fact
/// left the ending decides: loose hypotheses and constraints.
pub fn positions_lead_on()
    ensures nowhere { (hs : List (Fact Term)) (ending : Ending) (start : Stage) →
        PlacesOn hs ending start [] start × PlacesFirst hs ending start [] start }
    ensures on { (hs : List (Fact Term)) (ending : Ending) (start : Stage)
        (bs new : List Binding)
        (taken : List Bool) (done : List ℕ) (g h : Fact Term) (rest : List (Fact Term)) (p : ℕ) →
        get_or taken p false ≡ false → slice_get hs p ≡ Some h → FactMatched bs new g h →
        PlacesOn hs ending start done
        (record { bindings = bs; taken = taken; unplaced = g ∷ rest }) →
        PlacesOn hs ending start (done ++ p ∷ [])
        (record { bindings = new; taken = set taken p true; unplaced = rest }) }
    ensures first { (hs : List (Fact Term)) (ending : Ending) (start : Stage)
        (bs new : List Binding)
        (taken : List Bool) (done : List ℕ) (g h : Fact Term) (rest : List (Fact Term)) (p : ℕ) →
        length taken ≡ length hs →
        get_or taken p false ≡ false → slice_get hs p ≡ Some h → FactMatched bs new g h →
        ((q : ℕ) → q < p → CanStand bs taken hs g rest ending q → ⊥) →
        PlacesFirst hs ending start done
        (record { bindings = bs; taken = taken; unplaced = g ∷ rest }) →
        PlacesFirst hs ending start (done ++ p ∷ [])
        (record { bindings = new; taken = set taken p true; unplaced = rest }) }
    ensures no_further { (hs : List (Fact Term)) (ending : Ending) (start : Stage)
        (bs : List Binding) (taken : List Bool) (done row : List ℕ) (g : Fact Term)
        (rest : List (Fact Term)) (p : ℕ) → length taken ≡ length hs →
        (CanStand bs taken hs g rest ending p → ⊥) →
        PlacesOn hs ending start done
        (record { bindings = bs; taken = taken; unplaced = g ∷ rest }) →
        HoldsFrom start.bindings start.taken hs start.unplaced ending (done ++ p ∷ row) → ⊥ }
    ensures end { (hs : List (Fact Term)) (ending : Ending) (start : Stage) (bs : List Binding)
        (taken : List Bool) (done : List ℕ) → length taken ≡ length hs →
        PlacesOn hs ending start done (record { bindings = bs; taken = taken; unplaced = [] }) →
        HoldsFrom start.bindings start.taken hs start.unplaced ending done ↔
        CanPlace bs taken hs [] ending }
    ensures first_end { (hs : List (Fact Term)) (ending : Ending) (start : Stage)
        (bs : List Binding) (taken : List Bool) (done : List ℕ) →
        PlacesFirst hs ending start done (record { bindings = bs; taken = taken; unplaced = [] }) →
        CanPlace bs taken hs [] ending →
        IsFirstFrom start.bindings start.taken hs start.unplaced ending done }
{}

/// In a normal clause each variable of a loose hypothesis or a constraint stands in the conclusion or in a firm
/// hypothesis: else it would be dropped. So each is bound once the conclusion is matched and all firm hypotheses are
/// placed.
pub fn normal_clauses_are_linked()
    ensures normal { (c : Clause Term) → IsNormal c → IsLinked c }
    ensures own { (c : Clause Term) → norm c ≡ Some c → IsLinked c }
    ensures conclusion { (bs : List Binding) (c : Clause Term) (h : Fact Term) → IsLinked c →
        FactMatched [] bs c.conclusion h →
        AreLinked bs (linked_variables (loose_variables c.hypotheses) c.diffs)
        (firm c.hypotheses) }
    ensures placed { (old new : List Binding) (variables : List ℕ) (facts rest : List (Fact Term))
        (g h : Fact Term) → Picks facts g rest → FactMatched old new g h →
        AreLinked old variables facts → AreLinked new variables rest }
    ensures both { (bs : List Binding) (loose : List Loose) (diffs : List Diff)
        (facts : List (Fact Term)) → AreLinked bs (linked_variables loose diffs) facts ↔
        (AreLinked bs (variables_of loose) facts ×
        AreLinked bs (flat_map diff_variables diffs) facts) }
{}

/// Facts are removed from the free positions one after another, whichever of equal ones goes: with more of them there
/// is room for them at first exactly where there is room for the others at last.
pub fn removal_is_exact()
    ensures nothing { (hs : List (Fact Term)) (flags : List Bool) → Removes hs flags flags [] }
    ensures one { (hs : List (Fact Term)) (flags : List Bool) (p : ℕ) (y : Fact Term) →
        length flags ≡ length hs → get_or flags p false ≡ false → slice_get hs p ≡ Some y →
        Removes hs flags (set flags p true) (y ∷ []) }
    ensures both { (hs ys zs : List (Fact Term)) (before between now : List Bool) →
        Removes hs before between ys → Removes hs between now zs →
        Removes hs before now (ys ++ zs) }
    ensures room { (hs ys : List (Fact Term)) (before now : List Bool) →
        Removes hs before now ys → IsWithin ys (left before hs) }
    ensures lacking { (hs : List (Fact Term)) (flags : List Bool) (y : Fact Term) →
        length flags ≡ length hs → Lacks hs flags y → HasNoRoom hs flags (y ∷ []) }
    ensures more { (hs ys more : List (Fact Term)) (flags : List Bool) →
        HasNoRoom hs flags ys → HasNoRoom hs flags (ys ++ more) }
    ensures later { (hs ys zs : List (Fact Term)) (before now : List Bool) →
        Removes hs before now ys → HasNoRoom hs now zs → HasNoRoom hs before (ys ++ zs) }
{}

/// Where all loose variables are bound and no fact is left to place, their parts and the constraints decide: they can
/// be placed where there is room for them and the bindings keep the constraints. Where there is no room for the parts of
/// those that are bound, or the bindings have all variables of the constraints and don't keep them, nothing can be
/// placed.
pub fn loose_parts_decide()
    ensures joined { (bs : List Binding) (xs ys : List Loose) →
        bound_parts bs (xs ++ ys) ≡ bound_parts bs xs ++ bound_parts bs ys }
    ensures placed { (bs : List Binding) (taken : List Bool) (hs : List (Fact Term))
        (ending : Ending) → AreDistinct bs → AreLinked bs (variables_of ending.loose) [] →
        IsWithin (bound_parts bs ending.loose) (left taken hs) →
        AreKept ending (replaced_once bs) → CanPlace bs taken hs [] ending }
    ensures unplaced { (bs : List Binding) (taken : List Bool) (hs unplaced : List (Fact Term))
        (ending : Ending) → HasNoRoom hs taken (bound_parts bs ending.loose) →
        CanPlace bs taken hs unplaced ending → ⊥ }
    ensures unkept { (bs : List Binding) (taken : List Bool) (hs unplaced : List (Fact Term))
        (ending : Ending) → AreDistinct bs →
        AreLinked bs (flat_map diff_variables ending.diffs) [] →
        (AreKept ending (replaced_once bs) → ⊥) → CanPlace bs taken hs unplaced ending → ⊥ }
{}

/// More facts that fit no free position outside of an area than the area has positions can't be placed. They are
/// counted one after another.
pub fn crowds_are_not_placed()
    ensures crowded { (bs : List Binding) (taken : List Bool) (hs unplaced : List (Fact Term))
        (ending : Ending) (area : List Bool) (n : ℕ) → length taken ≡ length hs →
        AreConfined bs taken hs area unplaced n → room area < n →
        CanPlace bs taken hs unplaced ending → ⊥ }
    ensures none { (bs : List Binding) (taken : List Bool) (hs : List (Fact Term))
        (area : List Bool) → AreConfined bs taken hs area [] 0 }
    ensures more { (bs : List Binding) (taken : List Bool) (hs facts : List (Fact Term))
        (area : List Bool) (n : ℕ) (fact : Fact Term) → AreConfined bs taken hs area facts n →
        IsConfined bs taken hs area fact →
        AreConfined bs taken hs area (facts ++ fact ∷ []) (n + 1) }
    ensures same { (bs : List Binding) (taken : List Bool) (hs facts : List (Fact Term))
        (area : List Bool) (n : ℕ) (fact : Fact Term) → AreConfined bs taken hs area facts n →
        AreConfined bs taken hs area (facts ++ fact ∷ []) n }
    ensures room { (area : List Bool) (b : Bool) →
        room (area ++ b ∷ []) ≡ room area + cond b 1 0 }
{}
