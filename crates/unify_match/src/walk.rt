//! Following bindings: from a term to where its variable leads, and looking for a variable.

ghost use Rattle.std.specs.Prelude.{◌≡◌, ◌<◌, ◌↔◌, IsTrue, IfOk, OnOk, None, length};
ghost use Rattle.spec_trees.specs.Tree.{bind};
ghost use Rattle.spec_terms.specs.Term.{has_var};
ghost use Rattle.spec_terms.specs.Binding.{resolved};
ghost use Rattle.term_tree.specs.Bank.{tree_at};
ghost use Rattle.unify_match.specs.Trail.{id_of};
ghost use Rattle.unify_match.specs.Seen.{seen, IsReady, IsWalked};
ghost use Rattle.unify_match.specs.Memo.{AreClear};

use crate::binds::Binds;
use crate::memo::Memo;
use std::alloc::AllocError;
use term_tree::{Bank, Id, Node};

/// Where the bindings of variables lead from a term: to an application or an unbound variable.
#[inline(never)]
pub fn walk<B: Bank>(bank: &B, binds: &Binds, id: Id) -> Id
    requires known { id.index < length (B.trees bank.now) }
    requires ready { IsReady (B.trees bank.now) binds.now.pairs }
    ensures { IsWalked (B.trees bank.now) binds.now.pairs id result }
{
    let mut at = id;
    'chain: loop {
        match bank.node(at) {
            Node::Var(number) => match binds.look(number) {
                Some(next) => at = next,
                None => return at,
            },
            Node::App(_, _) => return at,
        }
    }
}

/// Whether a variable stands in what a term stands for. `clear` remembers where it does not, so that no
/// term is looked at often.
pub fn occurs<B: Bank>(
    bank: &B,
    binds: &Binds,
    clear: &mut Memo,
    number: u32,
    id: Id,
) -> Result<bool, AllocError>
    requires known { id.index < length (B.trees bank.now) }
    requires ready { IsReady (B.trees bank.now) binds.now.pairs }
    requires clear { AreClear (B.trees bank.now) binds.now.pairs number clear.old }
    ensures clear { AreClear (B.trees bank.now) binds.now.pairs number clear.new }
    ensures found { IfOk result (λ found. found ≡
        has_var number (bind (resolved (seen (B.trees bank.now) binds.now.pairs))
        (tree_at (B.trees bank.now) id))) }
{
    let end = walk(bank, binds, id);
    match bank.node(end) {
        Node::Var(found) => Ok(number == found),
        Node::App(_, args) => {
            if args.is_empty() {
                return Ok(false);
            }
            if clear.has(number as usize, end.index) {
                return Ok(false);
            }
            'args: for arg in args {
                if occurs(bank, binds, clear, number, *arg)? {
                    return Ok(true);
                }
            }
            clear.pass(number as usize, end.index)?;
            Ok(false)
        }
    }
}
