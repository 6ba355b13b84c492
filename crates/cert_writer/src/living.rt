//! The live clauses of a log.

ghost use Rattle.std.specs.Prelude.{◌≡◌, ◌++◌, [], ◌∷◌, IfOk, OnOk};
ghost use Rattle.cert_writer.specs.Living.{live_ids};

use clause_form::Clauses;
use clause_saturate::{Entry, Log};
use std::alloc::{AllocError, Global};

/// Adds the clause of an entry that is live.
fn add_live(alloc: Global, live: &mut Clauses, entry: &Entry) -> Result<(), AllocError>
    ensures { OnOk result (live.new ≡ live.old ++ live_ids (entry.now ∷ [])) }
{
    match entry.by {
        None => {
            let copied = entry.clause.copy(alloc)?;
            live.items.push(copied)?;
            Ok(())
        }
        Some(_) => Ok(()),
    }
}

/// The clauses of the live entries, in order.
pub(crate) fn live_of(alloc: Global, log: &Log) -> Result<Clauses, AllocError>
    ensures { IfOk result (λ live. live ≡ live_ids log.now) }
{
    let mut live = Clauses {
        items: Vec::new(alloc),
    };
    'each: for entry in &log.items {
        add_live(alloc, &mut live, entry)?;
    }
    Ok(live)
}
