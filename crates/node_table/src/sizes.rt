//! Whether clauses are too large for a table: their symbols are counted up to each term, as long as they are within the limits.

ghost use Rattle.std.specs.Prelude.{◌≡◌, map};
ghost use Rattle.std.specs.Rc.{rc_value};
ghost use Rattle.spec_trees.specs.Tree.{size};
ghost use Rattle.spec_clauses.specs.Fact.{total};
ghost use Rattle.spec_clauses.specs.Head.{head_of, head_size};
ghost use Rattle.spec_node_tables.specs.Large.{fact_piece, diff_piece, pieces, is_large_in_nodes};
ghost use Rattle.clause_form.specs.Plain.{term_of};
ghost use Rattle.clause_form.specs.PlainFacts.{plain_fact_of};
ghost use Rattle.node_table.specs.Room.{room_less, room_behind_piece, room_behind_pieces, room_behind_rest, room_behind_next};

use clause_diffs::{PlainDiff, PlainDiffs};
use clause_form::{PlainClause, PlainFact, PlainFacts, Tree};
use limits::{MOST_REPORT_BYTES, MOST_SYMBOLS};
use std::rc::Rc;

/// The most symbols of all clauses of a certificate that is written by a table: as many as a report has bytes at most.
const MOST_CERTIFICATE_SYMBOLS: u64 = MOST_REPORT_BYTES as u64;

/// Room for so many symbols, less those of a tree; none where it has more.
fn room_behind_tree(tree: &Tree, room: u64) -> Option<u64>
    ensures { result ≡ room_less room (size (term_of tree.now)) }
{
    if room == 0 {
        return None;
    }
    let mut left = room - 1;
    match tree {
        Tree::Var(_) => Some(left),
        Tree::App(_, arguments) => {
            'each: for argument in &arguments.items {
                match room_behind_tree(argument, left) {
                    Some(less) => left = less,
                    None => return None,
                }
            }
            Some(left)
        }
    }
}

/// Room for so many symbols, less those of trees; none where these have more.
fn room_behind_trees(trees: &[Tree], room: u64) -> Option<u64>
    ensures { result ≡ room_less room (total size (map term_of trees.now)) }
{
    let mut left = room;
    'each: for tree in trees {
        match room_behind_tree(tree, left) {
            Some(less) => left = less,
            None => return None,
        }
    }
    Some(left)
}

/// The symbols that a fact has besides those of its terms.
fn head_symbols(fact: &PlainFact) -> u64
    ensures { result ≡ head_size (head_of (plain_fact_of fact.now)) }
{
    match fact {
        PlainFact::Att(..) | PlainFact::Mess(..) | PlainFact::Bad(_) => 1,
        PlainFact::Tab(..) | PlainFact::Ev(..) | PlainFact::Mev(..) => 2,
    }
}

/// Room for so many symbols, less those of a fact; none where there are too many up to one of its terms.
fn room_behind_fact(fact: &PlainFact, room: u64) -> Option<u64>
    ensures { result ≡ room_behind_piece room (fact_piece (plain_fact_of fact.now)) }
{
    let left = room.saturating_sub(head_symbols(fact));
    match fact {
        PlainFact::Att(_, term) => room_behind_tree(term, left),
        PlainFact::Mess(_, channel, message) => match room_behind_tree(channel, left) {
            Some(less) => room_behind_tree(message, less),
            None => None,
        },
        PlainFact::Tab(_, arguments)
        | PlainFact::Ev(_, arguments)
        | PlainFact::Mev(_, arguments)
        | PlainFact::Bad(arguments) => { room_behind_trees(&arguments.items, left) }
    }
}

/// Room for so many symbols, less those of facts; none where there are too many up to one of their terms.
fn room_behind_facts(facts: &PlainFacts, room: u64) -> Option<u64>
    ensures { result ≡ room_behind_pieces room (map fact_piece facts.now) }
{
    let mut left = room;
    'each: for fact in &facts.items {
        match room_behind_fact(fact, left) {
            Some(less) => left = less,
            None => return None,
        }
    }
    Some(left)
}

/// Room for so many symbols, less those of a constraint; none where there are too many up to one of its terms.
fn room_behind_diff(diff: &PlainDiff, room: u64) -> Option<u64>
    ensures { result ≡ room_behind_piece room (diff_piece diff.now) }
{
    match room_behind_trees(&diff.left.items, room.saturating_sub(1)) {
        Some(left) => room_behind_trees(&diff.right.items, left),
        None => None,
    }
}

/// Room for so many symbols, less those of constraints; none where there are too many up to one of their terms.
fn room_behind_diffs(diffs: &PlainDiffs, room: u64) -> Option<u64>
    ensures { result ≡ room_behind_pieces room (map diff_piece diffs.now) }
{
    let mut left = room;
    'each: for diff in &diffs.items {
        match room_behind_diff(diff, left) {
            Some(less) => left = less,
            None => return None,
        }
    }
    Some(left)
}

/// Room for so many symbols, less those of a clause's constraints and its conclusion; none where there are too many up to one of
/// their terms.
fn room_behind_rest(diffs: &PlainDiffs, concl: &PlainFact, room: u64) -> Option<u64>
    ensures { result ≡ room_behind_rest diffs.now (plain_fact_of concl.now) room }
{
    if diffs.items.is_empty() {
        return room_behind_fact(concl, room);
    }
    match room_behind_diffs(diffs, room) {
        Some(left) => room_behind_fact(concl, left),
        None => None,
    }
}

/// Room for so many symbols, less those of a clause; none where there are too many up to one of its terms.
fn room_behind_clause(clause: &PlainClause, room: u64) -> Option<u64>
    ensures { result ≡ room_behind_pieces room (pieces clause.now) }
{
    match room_behind_facts(&clause.hyps, room) {
        Some(left) => room_behind_rest(&clause.diffs, &clause.concl, left),
        None => None,
    }
}

/// Room for so many symbols of all clauses, less those of this one; none where there are too many up to one of its
/// terms, of the clause alone or of all. One walk tells where it leaves room.
fn room_behind_next(clause: &PlainClause, room: u64) -> Option<u64>
    ensures { result ≡ room_behind_next room (pieces clause.now) }
{
    let least = room.min(MOST_SYMBOLS);
    match room_behind_clause(clause, least) {
        None => None,
        Some(0) => match room_behind_clause(clause, MOST_SYMBOLS) {
            None => None,
            Some(_) => room_behind_clause(clause, room),
        },
        Some(less) => Some(room - (least - less)),
    }
}

/// Whether the clauses are too large for a table. Takes no memory.
pub fn is_large_in_nodes(clauses: &[Rc<PlainClause>]) -> bool
    ensures { result ≡ is_large_in_nodes (map rc_value clauses.now) }
{
    let mut left = MOST_CERTIFICATE_SYMBOLS;
    'each: for clause in clauses {
        match room_behind_next(clause, left) {
            Some(less) => left = less,
            None => return true,
        }
    }
    false
}
