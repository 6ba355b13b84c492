//! Which tests of a file have a branch that no run reaches: asked of the protocol that the marked file spells, in which an event of its
//! own stands in front of each test and of each branch.

ghost use Rattle.std.specs.Prelude.{◌<◌, ◌^◌, IfOk};
ghost use Rattle.pi_tree.specs.Protocols.{protocol_of};
ghost use Rattle.protocol_text.specs.declared.questions.Subject.{Subject as About};
ghost use Rattle.hx.specs.Readable.{IsReadable};
ghost use Rattle.hx.specs.Never.{IsNever, IsListed};

use crate::impossible::never_among;
use crate::loading::read;
use crate::refusing::Unread;
use pi_tree::{Kind, Protocol};
use protocol_text::{Impossible, Source, Tests, events_behind, marked_text};
use std::alloc::{AllocError, Global};

/// Which of the last so many events of a protocol no run performs, as far as it is proved with the budget.
fn never_of_last(
    alloc: Global,
    protocol: &Protocol,
    count: u32,
    budget: u64,
) -> Result<Impossible, AllocError>
    requires readable { IsReadable (protocol_of protocol.now) }
    requires budget { budget < 2 ^ 32 }
    ensures never { IfOk result (λ found. (s : About) → IsListed found s →
        IsNever (protocol_of protocol.now) budget s) }
{
    let before = protocol.count(Kind::Event).saturating_sub(count);
    let all = events_behind(alloc, protocol, before)?;
    never_among(alloc, protocol, &all, budget)
}

/// The numbers of these events among the last so many of a protocol, from 1.
fn numbers_among_last(
    alloc: Global,
    protocol: &Protocol,
    count: u32,
    events: &[u32],
) -> Result<Vec<u32>, AllocError> {
    let before = protocol.count(Kind::Event).saturating_sub(count);
    let mut numbers = Vec::new(alloc);
    for event in events {
        numbers.push(event.saturating_sub(before))?;
    }
    Ok(numbers)
}

/// The marks that no run of a marked protocol performs: its last events, so many.
fn never_marks(
    alloc: Global,
    protocol: &Protocol,
    count: u32,
    budget: u64,
) -> Result<Vec<u32>, AllocError>
    requires readable { IsReadable (protocol_of protocol.now) }
    requires budget { budget < 2 ^ 32 }
{
    let found = never_of_last(alloc, protocol, count, budget)?;
    numbers_among_last(alloc, protocol, count, &found.events)
}

/// The marks of a file's tests that no run of the protocol that the marked file spells performs, as far as it is proved with the budget;
/// none where the marked file is over a limit.
pub(crate) fn dead_marks(
    source: Source<'_>,
    tests: &Tests,
    budget: u64,
) -> Result<Vec<u32>, AllocError>
    requires budget { budget < 2 ^ 32 }
{
    let alloc = source.alloc;
    let bytes = marked_text(source, tests)?;
    match read(alloc, &bytes) {
        Err(Unread::Memory) => Err(AllocError),
        Err(Unread::Refused(_, _)) => Ok(Vec::new(alloc)),
        Ok(reading) => {
            let never = never_marks(alloc, &reading.protocol, tests.count_marks(), budget);
            drop(reading);
            never
        }
    }
}
