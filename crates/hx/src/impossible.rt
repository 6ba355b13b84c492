//! What can't happen: asked by queries of its own, which are decided as those of the file are.

ghost use Rattle.std.specs.Prelude.{◌≡◌, ◌⊎◌, ◌+◌, ◌<◌, ◌≤◌, ◌^◌, [], ◌∷◌, ◌++◌, length, IfOk, OnOk};
ghost use Rattle.spec_calculus.specs.Bounds.{most_queries};
ghost use Rattle.spec_calculus.specs.Syntax.{EventTerm};
ghost use Rattle.pi_tree.specs.Protocols.{protocol_of};
ghost use Rattle.query_verify.specs.Told.{AnswerQueries};
ghost use Rattle.protocol_text.specs.declared.questions.Subject.{Subject as About};
ghost use Rattle.protocol_text.specs.Questions.{IsAbout};
ghost use Rattle.protocol_text.specs.Asking.{AreSubjects};
ghost use Rattle.hx.specs.Readable.{IsReadable};
ghost use Rattle.hx.specs.Never.{is_proved, IsNever, IsUnproved, IsListed};
ghost use Rattle.hx.specs.Noted.{AreAnswered, IsOneMore, IsNoted, AreNoted, AreTold, AreFound};

use pi_tree::{MOST_QUERIES, Protocol};
use protocol_text::{Impossible, Subject, asking_about, subjects};
use query_verify::{Verdict, Verdicts, verdicts};
use spec_verdicts::proved_queries_hold;
use std::alloc::{AllocError, Global};
use term_store::SharedBank;

/// The verdicts of all queries of a protocol, over a bank of their own.
fn decided(alloc: Global, protocol: &Protocol, budget: u64) -> Result<Verdicts, AllocError>
    requires readable { IsReadable (protocol_of protocol.now) }
    requires budget { budget < 2 ^ 32 }
    ensures { let P = protocol_of protocol.now in
        IfOk result (λ answers. AnswerQueries P budget P.queries answers) }
{
    let mut bank = SharedBank::new(alloc)?;
    let answers = verdicts(alloc, &mut bank, protocol, budget);
    drop(bank);
    answers
}

/// The verdicts of the questions about these subjects, one for each.
fn answers(
    alloc: Global,
    protocol: &Protocol,
    subjects: &[Subject],
    budget: u64,
) -> Result<Verdicts, AllocError>
    requires readable { IsReadable (protocol_of protocol.now) }
    requires budget { budget < 2 ^ 32 }
    requires there { AreSubjects (protocol_of protocol.now) subjects.now }
    requires few { length subjects.now ≤ most_queries }
    ensures { IfOk result (λ answers.
        AreAnswered (protocol_of protocol.now) budget subjects.now answers) }
{
    let asked = asking_about(alloc, protocol, subjects)?;
    let told = decided(alloc, &asked, budget);
    drop(asked);
    told
}

/// Puts a number at the end.
fn put(numbers: &mut Vec<u32>, number: u32) -> Result<(), AllocError>
    ensures { OnOk result (numbers.new.items ≡ numbers.old.items ++ number ∷ []) }
{
    numbers.push(number)?;
    Ok(())
}

/// Lists a subject.
fn list(subject: Subject, found: &mut Impossible) -> Result<(), AllocError>
    ensures { OnOk result (IsOneMore subject found.old found.new) }
{
    match subject {
        Subject::Event(event) => put(&mut found.events, event),
        Subject::Left(query) => put(&mut found.queries, query),
    }
}

/// Whether the verdict is that the query is proved.
fn is_proved(answer: &Verdict) -> bool
    ensures { result ≡ is_proved answer.now }
{
    match answer {
        Verdict::Proved(_) => true,
        Verdict::Budget(_, _)
        | Verdict::SizePair(_, _, _)
        | Verdict::SizePoint(_)
        | Verdict::Unmet(_, _)
        | Verdict::Attack(_) => false,
    }
}

/// Lists a subject whose question is proved.
fn note(subject: Subject, answer: &Verdict, found: &mut Impossible) -> Result<(), AllocError>
    ensures { OnOk result (IsNoted subject answer.now found.old found.new) }
{
    if is_proved(answer) {
        list(subject, found)
    } else {
        Ok(())
    }
}

/// Notes each subject whose question is proved.
fn note_proved(
    subjects: &[Subject],
    answers: &[Verdict],
    found: &mut Impossible,
) -> Result<(), AllocError>
    requires as_many { length answers.now ≡ length subjects.now }
    ensures { OnOk result
        (AreNoted (length subjects.now) subjects.now answers.now found.old found.new) }
{
    for index in 0..subjects.len() {
        note(subjects[index], &answers[index], found)?;
    }
    Ok(())
}

/// Notes each of these subjects of which it is proved that it never happens.
fn note_never(
    alloc: Global,
    protocol: &Protocol,
    subjects: &[Subject],
    budget: u64,
    found: &mut Impossible,
) -> Result<(), AllocError>
    requires readable { IsReadable (protocol_of protocol.now) }
    requires budget { budget < 2 ^ 32 }
    requires there { AreSubjects (protocol_of protocol.now) subjects.now }
    requires few { length subjects.now ≤ most_queries }
    ensures { OnOk result
        (AreTold (protocol_of protocol.now) budget subjects.now found.old found.new) }
{
    proved_queries_hold();
    let told = answers(alloc, protocol, subjects, budget)?;
    note_proved(subjects, &told.items, found)
}

/// Where a part of a list that begins there ends, which may be asked about at once.
fn part_end(from: usize, count: usize) -> usize
    requires { from < count }
    ensures later { from < result }
    ensures within { result ≤ count }
    ensures few { result ≤ from + most_queries }
{
    if count - from <= MOST_QUERIES {
        count
    } else {
        from + MOST_QUERIES
    }
}

/// Which of these subjects never happen, as far as it is proved.
pub(crate) fn never_among(
    alloc: Global,
    protocol: &Protocol,
    subjects: &[Subject],
    budget: u64,
) -> Result<Impossible, AllocError>
    requires readable { IsReadable (protocol_of protocol.now) }
    requires budget { budget < 2 ^ 32 }
    requires there { AreSubjects (protocol_of protocol.now) subjects.now }
    ensures { IfOk result (λ found.
        AreFound (protocol_of protocol.now) budget subjects.now found) }
{
    let events = Vec::new(alloc);
    let queries = Vec::new(alloc);
    let mut found = Impossible { events, queries };
    let mut from = 0;
    'each: while from < subjects.len() {
        let to = part_end(from, subjects.len());
        note_never(alloc, protocol, &subjects[from..to], budget, &mut found)?;
        from = to;
    }
    Ok(found)
}

/// Which events, and which left sides of correspondences that have alternatives, no run of the protocol performs, as far as it is
/// proved with the budget. What is listed never happens; of every other event and left side the question whether it ever happens
/// isn't proved with the budget.
///
/// The conditions hold of each protocol that is read, and of each budget that a command may name. `Err` comes for want of
/// memory, and where `verdicts` answers it since a number doesn't fit.
pub fn impossible(alloc: Global, protocol: &Protocol, budget: u64) -> Result<Impossible, AllocError>
    requires readable { IsReadable (protocol_of protocol.now) }
    requires budget { budget < 2 ^ 32 }
    ensures never { IfOk result (λ found. (s : About) → IsListed found s →
        IsNever (protocol_of protocol.now) budget s) }
    ensures others { IfOk result (λ found. (s : About) (event : EventTerm) →
        IsAbout (protocol_of protocol.now) s event →
        IsListed found s ⊎ IsUnproved (protocol_of protocol.now) budget event) }
{
    let all = subjects(alloc, protocol)?;
    never_among(alloc, protocol, &all, budget)
}
