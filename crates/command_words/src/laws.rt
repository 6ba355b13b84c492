//! What follows from the definitions of the words, as contracts of functions that do nothing.
ghost use Rattle.std.specs.Prelude.{◌≡◌, ◌≢◌, ◌↔◌, ◌≤◌, ◌∷◌, ◌++◌, [], ℕ, List, None, Some};
ghost use Rattle.std.specs.Prelude.{true, false, IsSome, IsTrue, codes, slice_index};
ghost use Rattle.std.specs.Str.Parse.{digits_value, without_leading_plus};
ghost use Rattle.clap.specs.ValueTests.{is_unsigned_in};
ghost use Rattle.spec_calculus.specs.Bounds.{most_queries, most_budget, most_keys};
ghost use Rattle.command_words.specs.Request.{Check, ListOf, Replay, RingOf, Verify, is_taken};
ghost use Rattle.command_words.specs.Request.{request_of};

/// The words that `clap` takes are those that make a request.
pub fn taken_words()
    ensures { (words : List (List ℕ)) → IsTrue (is_taken words) ↔ IsSome (request_of words) }
{}

/// A word that does not begin with a dash (45) is a name. With no option the budget is 10,000, and the format 2.
pub fn names_without_dashes()
    ensures verify { (program file : List ℕ) → slice_index file 0 ≢ 45
        → request_of (program ∷ codes "verify" ∷ file ∷ []) ≡ Some (Verify file 10000 2) }
    ensures check { (program file report : List ℕ) → slice_index file 0 ≢ 45
        → slice_index report 0 ≢ 45
        → request_of (program ∷ codes "check" ∷ file ∷ report ∷ []) ≡ Some (Check file report) }
    ensures replay { (program file run : List ℕ) → slice_index file 0 ≢ 45
        → slice_index run 0 ≢ 45
        → request_of (program ∷ codes "replay" ∷ file ∷ run ∷ []) ≡ Some (Replay file run) }
{}

/// After `--` each word is a name, whatever it is.
pub fn names_after_dashes()
    ensures verify { (program file : List ℕ) →
        request_of (program ∷ codes "verify" ∷ codes "--" ∷ file ∷ [])
        ≡ Some (Verify file 10000 2) }
    ensures check { (program file report : List ℕ) →
        request_of (program ∷ codes "check" ∷ codes "--" ∷ file ∷ report ∷ [])
        ≡ Some (Check file report) }
    ensures replay { (program file run : List ℕ) →
        request_of (program ∷ codes "replay" ∷ codes "--" ∷ file ∷ run ∷ [])
        ≡ Some (Replay file run) }
{}

/// `--budget=` takes a number from 0 to the limit of budgets, and nothing else.
pub fn budgets()
    ensures taken { (program file number : List ℕ) → slice_index file 0 ≢ 45
        → is_unsigned_in 0 most_budget number ≡ true
        → request_of (program ∷ codes "verify" ∷ file ∷ (codes "--budget=" ++ number) ∷ [])
        ≡ Some (Verify file (digits_value 10 (without_leading_plus number)) 2) }
    ensures refused { (program file number : List ℕ) → slice_index file 0 ≢ 45
        → is_unsigned_in 0 most_budget number ≡ false
        → request_of (program ∷ codes "verify" ∷ file ∷ (codes "--budget=" ++ number) ∷ [])
        ≡ None }
{}

/// A budget that is asked for is within the limit.
pub fn asked_budgets()
    ensures { (words : List (List ℕ)) (file : List ℕ) (budget format : ℕ) →
        request_of words ≡ Some (Verify file budget format) → budget ≤ most_budget }
{}

/// `--format=` takes 1 or 2, and nothing else.
pub fn formats()
    ensures taken { (program file number : List ℕ) → slice_index file 0 ≢ 45
        → is_unsigned_in 1 2 number ≡ true
        → request_of (program ∷ codes "verify" ∷ file ∷ (codes "--format=" ++ number) ∷ [])
        ≡ Some (Verify file 10000 (digits_value 10 (without_leading_plus number))) }
    ensures refused { (program file number : List ℕ) → slice_index file 0 ≢ 45
        → is_unsigned_in 1 2 number ≡ false
        → request_of (program ∷ codes "verify" ∷ file ∷ (codes "--format=" ++ number) ∷ [])
        ≡ None }
{}

/// A format that is asked for is 1 or 2.
pub fn asked_formats()
    ensures { (words : List (List ℕ)) (file : List ℕ) (budget format : ℕ) →
        request_of words ≡ Some (Verify file budget format) → (1 ≤ format) × (format ≤ 2) }
{}

/// `list` takes a query's number from 1 to the limit of queries, and nothing else.
pub fn query_numbers()
    ensures taken { (program file number : List ℕ) → slice_index file 0 ≢ 45
        → slice_index number 0 ≢ 45 → is_unsigned_in 1 most_queries number ≡ true
        → request_of (program ∷ codes "list" ∷ file ∷ number ∷ [])
        ≡ Some (ListOf file (digits_value 10 (without_leading_plus number))) }
    ensures refused { (program file number : List ℕ) → slice_index file 0 ≢ 45
        → slice_index number 0 ≢ 45 → is_unsigned_in 1 most_queries number ≡ false
        → request_of (program ∷ codes "list" ∷ file ∷ number ∷ []) ≡ None }
{}

/// `ring` takes a number of keys from 2 to the limit, and nothing else.
pub fn stage_numbers()
    ensures taken { (program number : List ℕ) → slice_index number 0 ≢ 45
        → is_unsigned_in 2 most_keys number ≡ true
        → request_of (program ∷ codes "ring" ∷ number ∷ [])
        ≡ Some (RingOf (digits_value 10 (without_leading_plus number))) }
    ensures refused { (program number : List ℕ) → slice_index number 0 ≢ 45
        → is_unsigned_in 2 most_keys number ≡ false
        → request_of (program ∷ codes "ring" ∷ number ∷ []) ≡ None }
{}

/// A ring that is asked for has at least 2 keys, and no more than the limit.
pub fn asked_stages()
    ensures { (words : List (List ℕ)) (stages : ℕ) →
        request_of words ≡ Some (RingOf stages) → (2 ≤ stages) × (stages ≤ most_keys) }
{}

/// A request for help or for the version is refused, whatever follows it.
pub fn help_refused()
    ensures word { (program : List ℕ) (rest : List (List ℕ)) →
        request_of (program ∷ codes "help" ∷ rest) ≡ None }
    ensures long { (program : List ℕ) (rest : List (List ℕ)) →
        request_of (program ∷ codes "--help" ∷ rest) ≡ None }
    ensures short { (program : List ℕ) (rest : List (List ℕ)) →
        request_of (program ∷ codes "-h" ∷ rest) ≡ None }
    ensures version { (program : List ℕ) (rest : List (List ℕ)) →
        request_of (program ∷ codes "--version" ∷ rest) ≡ None }
{}
