//! Why a query isn't proved, and why no run was found, as text.

ghost use Rattle.pi_tree.specs.Protocols.{protocol_of};
ghost use Rattle.pi_tree.specs.Accessors.{IsThere};
ghost use Rattle.pi_tree.specs.declared.accessors.Kind.TheVariants.{Query as OfQueries};
ghost use Rattle.clause_instances.specs.Instances.{AreKnownInstances};
ghost use Rattle.query_verify.specs.Asked.{IsNeverLarge};
ghost use Rattle.hx.specs.Logged.{CanExplainLog, CanBeExplained};
ghost use Rattle.hx.specs.Readable.{IsReadable};
ghost use Rattle.hx.specs.Explained.{CanExplain};

use crate::numbered::put_numbered;
use crate::stopping::stop_of;
use attack_compiling::Compilation;
use attack_run::reconstruct;
use clause_instances::{Derivation, Instances, instances_of};
use clause_sources::Sources;
use hv_io::put_words;
use log_entries::PlainLog;
use log_text::{
    LogEnd, QueryLog, Setting, Stopped, Told, entry_derivation, put_derivation, put_goals, put_stop,
};
use std::alloc::AllocError;
use term_store::SharedBank;

/// An entry of the log of a query that doesn't satisfy the query.
#[derive(Clone, Copy)]
pub struct Unmet<'a> {
    setting: Setting<'a>,
    query: u32,
    sources: &'a Sources,
    log: &'a PlainLog,
    number: usize,
}

/// Puts why no attack is compiled of the instances.
fn put_compiled(
    out: &mut Vec<u8>,
    unmet: Unmet<'_>,
    bank: &mut SharedBank,
    instances: &Instances,
) -> Result<(), AllocError>
    requires readable { IsReadable (protocol_of unmet.setting.protocol.now) }
    requires known { AreKnownInstances bank.old instances.now }
{
    let setting = unmet.setting;
    let sources = unmet.sources;
    let compilation = Compilation {
        alloc: setting.alloc,
        protocol: setting.protocol,
        sources,
        instances,
    };
    let Some(stop) = stop_of(&compilation, bank)? else {
        return put_numbered(
            out,
            "all ",
            instances.items.len() as u64,
            " uses of clauses are compiled to a run, which doesn't violate the query\n",
        );
    };
    let stopped = Stopped {
        setting,
        bank: &*bank,
        sources,
        instances,
        stop: &stop,
    };
    let put = put_stop(out, &stopped);
    drop(stop);
    put
}

/// Puts why no attack is compiled of the entry.
fn put_forgotten(
    out: &mut Vec<u8>,
    unmet: Unmet<'_>,
    bank: &mut SharedBank,
) -> Result<(), AllocError>
    requires { CanExplain unmet }
{
    let derivation = Derivation {
        alloc: unmet.setting.alloc,
        sources: unmet.sources,
        log: unmet.log,
    };
    match instances_of(&derivation, bank, unmet.number)? {
        None => out.extend_from_slice(
            b"it uses more than 100000 clauses, or one with a term over the limit of size\n",
        ),
        Some(instances) => put_compiled(out, unmet, bank, &instances),
    }
}

/// Puts how the entry is derived.
fn put_tree(out: &mut Vec<u8>, unmet: Unmet<'_>) -> Result<(), AllocError> {
    let made = entry_derivation(unmet.setting.alloc, unmet.log, unmet.number)?;
    put_derivation(out, unmet.setting, unmet.sources, unmet.log, &made)
}

/// How many steps the attack has that the entry tells, if it tells one.
fn attack_steps(unmet: Unmet<'_>) -> Result<Option<usize>, AllocError>
    requires { CanExplain unmet }
{
    let setting = unmet.setting;
    match reconstruct(
        setting.alloc,
        setting.protocol,
        unmet.query,
        unmet.log,
        unmet.number,
    )? {
        None => Ok(None),
        Some(steps) => Ok(Some(steps.items.len())),
    }
}

/// Puts which command looks for an attack.
fn put_pointer(out: &mut Vec<u8>, query: u32) -> Result<(), AllocError> {
    put_numbered(
        out,
        "`./hv show attack FILE ",
        u64::from(query),
        "` looks for one\n",
    )
}

/// Puts an entry that doesn't satisfy the query, its derivation, and where it tells no attack what was forgotten.
fn put_unmet(out: &mut Vec<u8>, unmet: Unmet<'_>) -> Result<(), AllocError>
    requires { CanExplain unmet }
{
    put_numbered(out, "entry ", unmet.number as u64, " ")?;
    if let Some(steps) = attack_steps(unmet)? {
        put_numbered(out, "tells an attack of ", steps as u64, " steps\n")?;
        return put_tree(out, unmet);
    }
    out.extend_from_slice(b"isn't satisfied, and no attack is compiled of it; ")?;
    put_pointer(out, unmet.query)?;
    put_tree(out, unmet)?;
    let mut bank = SharedBank::new(unmet.setting.alloc)?;
    let put = put_forgotten(out, unmet, &mut bank);
    drop(bank);
    put
}

/// Puts what the end of a log says of the query, where no entry doesn't satisfy it.
fn put_end(out: &mut Vec<u8>, end: &LogEnd) -> Result<(), AllocError> {
    match end {
        LogEnd::Closed => out.extend_from_slice(b"proved\n"),
        LogEnd::Spent(_) => {
            out.extend_from_slice(b"the budget is spent before the log closes; see `log`\n")
        }
        LogEnd::Large(solved, unsolved) => put_words(
            out,
            format_args!(
                "entry {solved} into {unsolved} is too large, so the log doesn't close; see `log`\n"
            ),
        ),
    }
}

/// Puts what is derived of the goal of a query whose log doesn't close.
fn put_derived(
    out: &mut Vec<u8>,
    setting: Setting<'_>,
    query: u32,
    sources: &Sources,
    told: &QueryLog,
) -> Result<(), AllocError> {
    put_goals(out, setting.alloc, setting.protocol, sources, told)?;
    out.extend_from_slice(b"no attack is compiled of a log that isn't closed; ")?;
    put_pointer(out, query)
}

/// Puts why a query isn't proved of which there is a log.
fn put_logged(
    out: &mut Vec<u8>,
    setting: Setting<'_>,
    query: u32,
    sources: &Sources,
    told: &QueryLog,
) -> Result<(), AllocError>
    requires readable { IsReadable (protocol_of setting.protocol.now) }
    requires there { IsThere (protocol_of setting.protocol.now) OfQueries query }
    requires small { IsNeverLarge (protocol_of setting.protocol.now) }
    requires ready { CanExplainLog told.now }
{
    if let Some(number) = told.unmet {
        let unmet = Unmet {
            setting,
            query,
            sources,
            log: &told.entries,
            number,
        };
        return put_unmet(out, unmet);
    }
    put_end(out, &told.end)?;
    match &told.end {
        LogEnd::Closed => Ok(()),
        LogEnd::Spent(_) | LogEnd::Large(_, _) => put_derived(out, setting, query, sources, told),
    }
}

/// What the names of the attacker look like in a clause.
const ATTACKERS_NAME: &[u8] = b"@[";

/// Whether a text shows a name of the attacker.
fn shows_name(text: &[u8]) -> bool {
    for from in 0..text.len() {
        if text[from..].starts_with(ATTACKERS_NAME) {
            return true;
        }
    }
    false
}

/// Puts what a name of the attacker is, where the text shows one.
fn put_legend(out: &mut Vec<u8>) -> Result<(), AllocError> {
    if shows_name(out.as_slice()) {
        out.extend_from_slice(
            b"@[..] is a name that the attacker makes, and with other brackets another one\n",
        )?;
    }
    Ok(())
}

/// Puts why the query of that number isn't proved: by its log, with the derivation of the first entry that doesn't satisfy it, and
/// where no attack is compiled of that the step at which the compilation stopped.
pub(crate) fn put_reason(
    out: &mut Vec<u8>,
    setting: Setting<'_>,
    query: u32,
    sources: &Sources,
    told: &Told,
) -> Result<(), AllocError>
    requires readable { IsReadable (protocol_of setting.protocol.now) }
    requires there { IsThere (protocol_of setting.protocol.now) OfQueries query }
    requires ready { CanBeExplained (protocol_of setting.protocol.now) told.now }
{
    put_numbered(out, "query ", u64::from(query), ": ")?;
    match told {
        Told::TooLarge(point) => put_numbered(
            out,
            "the visit of point ",
            u64::from(*point),
            " is too large, so there is no log\n",
        )?,
        Told::Logged(log) => put_logged(out, setting, query, sources, log)?,
    }
    put_legend(out)
}
