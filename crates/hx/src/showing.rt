//! What each command shows.

ghost use Rattle.std.specs.Prelude.{◌<◌, ◌^◌, IfOk, OnOk};
ghost use Rattle.spec_certificate_text.specs.OfProtocol.{HasNames};
ghost use Rattle.pi_tree.specs.Protocols.{protocol_of};
ghost use Rattle.pi_tree.specs.Accessors.{IsThere};
ghost use Rattle.pi_tree.specs.declared.accessors.Kind.TheVariants.{Query as OfQueries};
ghost use Rattle.protocol_loading.specs.Outside.{outside};
ghost use Rattle.hx.specs.Logged.{CanBeExplained};
ghost use Rattle.hx.specs.AttackText.{TellsFinding};
ghost use Rattle.hx.specs.CertificateText.{IsCertificatePage};
ghost use Rattle.hx.specs.Pages.{IsPageOf, IsPageOfText};
ghost use Rattle.hx.specs.Readable.{IsReadable};

use crate::attack_text::put_finding;
use crate::attacking::{Finding, Question, attack_of, run_of};
use crate::certifying::found_page;
use crate::checking::check_page;
use crate::commands::{CertificateOf, Command, LogOf, Look, Request, RunOf};
use crate::impossible::impossible;
use crate::loading::{load_protocol, load_run, read, refused_protocol};
use crate::logging::query_log;
use crate::outcome::{Outcome, Output};
use crate::reaching::{Reaching, put_reach};
use crate::reason::put_reason;
use crate::testing::dead_marks;
use attack_search::Searched;
use certificate_search::{Search, searched};
use clause_sources::Sources;
use clause_translate::sources;
use hv_io::Files;
use log_text::{Setting, Told, put_log};
use pi_tree::{Kind, Protocol};
use protocol_text::{
    DeadTests, Findings, Source, VariableWords, put_points, put_warnings, tests_of, variable_words,
};
use run_chart::{Chart, Drawn, draw, put_chart, put_svg};
use run_replay::Steps;
use std::alloc::{AllocError, Global};
use term_store::SharedBank;

/// The budget with which it is asked what can't happen, in clauses.
const WARN_BUDGET: u64 = 500;

/// A protocol that was read, with its file.
#[derive(Clone, Copy)]
pub struct Loaded<'a> {
    source: Source<'a>,
    protocol: &'a Protocol,
}

/// The words of the variables of a protocol that was loaded.
fn words_of(loaded: Loaded<'_>) -> Result<VariableWords, AllocError> {
    variable_words(loaded.source)
}

/// The process of a protocol, point by point.
fn points_of(loaded: Loaded<'_>) -> Result<Vec<u8>, AllocError> {
    let alloc = loaded.source.alloc;
    let words = words_of(loaded)?;
    let mut text = Vec::new(alloc);
    put_points(&mut text, alloc, loaded.protocol, &words)?;
    Ok(text)
}

/// Nothing, where the protocol has a query of this number.
fn need_query(protocol: &Protocol, query: u32) -> Result<(), Outcome>
    ensures { OnOk result (IsThere (protocol_of protocol.now) OfQueries query) }
{
    if query == 0 || query > protocol.count(Kind::Query) {
        return Err(Outcome::NoQuery(query));
    }
    Ok(())
}

/// The sources of the given clauses of a log; none where there is no log.
fn sources_of(
    alloc: Global,
    protocol: &Protocol,
    query: u32,
    told: &Told,
) -> Result<Sources, AllocError>
    requires readable { IsReadable (protocol_of protocol.now) }
    requires there { IsThere (protocol_of protocol.now) OfQueries query }
    requires ready { CanBeExplained (protocol_of protocol.now) told.now }
{
    match told {
        Told::TooLarge(_) => Ok(Sources {
            items: Vec::new(alloc),
        }),
        Told::Logged(_) => {
            let mut bank = SharedBank::new(alloc)?;
            let given = sources(alloc, &mut bank, protocol, query);
            drop(bank);
            given
        }
    }
}

/// What is told of the log of a query.
fn told_text(loaded: Loaded<'_>, query: u32, told: &Told) -> Result<Vec<u8>, AllocError>
    requires readable { IsReadable (protocol_of loaded.protocol.now) }
    requires there { IsThere (protocol_of loaded.protocol.now) OfQueries query }
    requires ready { CanBeExplained (protocol_of loaded.protocol.now) told.now }
{
    let alloc = loaded.source.alloc;
    let given = sources_of(alloc, loaded.protocol, query, told)?;
    let mut text = Vec::new(alloc);
    put_log(&mut text, alloc, loaded.protocol, &given, told)?;
    Ok(text)
}

/// The log of a query.
fn log_of(loaded: Loaded<'_>, asked: LogOf) -> Result<Vec<u8>, Outcome>
    requires { IsReadable (protocol_of loaded.protocol.now) }
{
    let query = asked.query;
    need_query(loaded.protocol, query)?;
    let budget = u64::from(asked.budget);
    let told = query_log(loaded.source.alloc, loaded.protocol, query, budget)?;
    let text = told_text(loaded, query, &told);
    drop(told);
    Ok(text?)
}

/// Why a query isn't proved, by what is told of its log.
fn reason_text(loaded: Loaded<'_>, query: u32, told: &Told) -> Result<Vec<u8>, AllocError>
    requires readable { IsReadable (protocol_of loaded.protocol.now) }
    requires there { IsThere (protocol_of loaded.protocol.now) OfQueries query }
    requires ready { CanBeExplained (protocol_of loaded.protocol.now) told.now }
{
    let alloc = loaded.source.alloc;
    let given = sources_of(alloc, loaded.protocol, query, told)?;
    let variables = words_of(loaded)?;
    let setting = Setting {
        alloc,
        protocol: loaded.protocol,
        variables: &variables,
    };
    let mut text = Vec::new(alloc);
    put_reason(&mut text, setting, query, &given, told)?;
    Ok(text)
}

/// Why a query isn't proved.
fn reason_of(loaded: Loaded<'_>, asked: LogOf) -> Result<Vec<u8>, Outcome>
    requires { IsReadable (protocol_of loaded.protocol.now) }
{
    let query = asked.query;
    need_query(loaded.protocol, query)?;
    let budget = u64::from(asked.budget);
    let told = query_log(loaded.source.alloc, loaded.protocol, query, budget)?;
    let text = reason_text(loaded, query, &told);
    drop(told);
    Ok(text?)
}

/// What the call comes to that warns: of warnings that there are with status 1 only where that is asked for.
fn warned(is_any: bool, is_strict: bool) -> Outcome {
    if is_any && is_strict {
        Outcome::Warned
    } else {
        Outcome::Shown
    }
}

/// The warnings of a protocol.
fn warn_page(loaded: Loaded<'_>, is_strict: bool) -> Result<Output, AllocError>
    requires { IsReadable (protocol_of loaded.protocol.now) }
{
    let source = loaded.source;
    let found = impossible(source.alloc, loaded.protocol, WARN_BUDGET)?;
    let tests = tests_of(source)?;
    let never = dead_marks(source, &tests, WARN_BUDGET)?;
    let findings = Findings {
        impossible: &found,
        dead: DeadTests {
            tests: &tests,
            never: &never,
        },
    };
    let mut text = Vec::new(source.alloc);
    let is_any = put_warnings(&mut text, loaded.protocol, source, findings)?;
    let outcome = warned(is_any, is_strict);
    Ok(Output { outcome, text })
}

/// A chart as text or as SVG.
fn chart_text(alloc: Global, chart: &Chart, look: Look) -> Result<Vec<u8>, AllocError> {
    let mut text = Vec::new(alloc);
    match look {
        Look::Svg => put_svg(&mut text, alloc, chart)?,
        Look::Text(width) => put_chart(&mut text, alloc, chart, width as usize)?,
    }
    Ok(text)
}

/// The chart of a run.
#[tactic(auto, using(crate::proofs::Limits::limited))]
fn chart_of(loaded: Loaded<'_>, steps: &Steps, look: Look) -> Result<Vec<u8>, Outcome>
    requires { IsReadable (protocol_of loaded.protocol.now) }
{
    let alloc = loaded.source.alloc;
    let words = words_of(loaded)?;
    match draw(alloc, loaded.protocol, &words, &steps.items)? {
        Drawn::Chart(chart) => {
            let text = chart_text(alloc, &chart, look);
            drop(chart);
            Ok(text?)
        }
        Drawn::Stuck(number, error) => Err(Outcome::Stuck(number, error)),
        Drawn::TooLong => Err(Outcome::LongRun),
    }
}

/// What the call comes to where this is found of the query that it asks about.
fn outcome_of(finding: &Finding) -> Outcome {
    match finding {
        Finding::Searched(Searched::Nothing(_)) => Outcome::NotFound,
        _ => Outcome::Shown,
    }
}

/// The text of what is found of a query: that it is proved, or a run that violates it, if one is found.
fn finding_page(question: &Question<'_>) -> Result<Output, Outcome>
    requires readable { IsReadable (protocol_of question.now.protocol.now) }
    requires there { IsThere (protocol_of question.now.protocol.now) OfQueries question.now.query }
    requires budget { question.now.budget < 2 ^ 32 }
    ensures { IfOk result (λ page. TellsFinding (protocol_of question.now.protocol.now)
        question.now.query question.now.budget page.text.items) }
{
    let finding = attack_of(question)?;
    let outcome = outcome_of(&finding);
    let mut text = Vec::new(question.alloc);
    put_finding(&mut text, question.query, &finding)?;
    Ok(Output { outcome, text })
}

/// What is found of a query.
fn attack_page(loaded: Loaded<'_>, asked: LogOf) -> Result<Output, Outcome>
    requires { IsReadable (protocol_of loaded.protocol.now) }
    ensures { IfOk result (λ page. TellsFinding (protocol_of loaded.entry.protocol.now)
        asked.query asked.budget page.text.items) }
{
    need_query(loaded.protocol, asked.query)?;
    finding_page(&Question {
        alloc: loaded.source.alloc,
        protocol: loaded.protocol,
        query: asked.query,
        budget: u64::from(asked.budget),
    })
}

/// The chart of an attack on a query; where none is found, what is found of the query.
fn attack_chart(loaded: Loaded<'_>, asked: LogOf, look: Look) -> Result<Output, Outcome>
    requires { IsReadable (protocol_of loaded.protocol.now) }
{
    need_query(loaded.protocol, asked.query)?;
    let finding = attack_of(&Question {
        alloc: loaded.source.alloc,
        protocol: loaded.protocol,
        query: asked.query,
        budget: u64::from(asked.budget),
    })?;
    match run_of(&finding) {
        Some(steps) => Ok(whole(chart_of(loaded, steps, look)?)),
        None => {
            let mut text = Vec::new(loaded.source.alloc);
            put_finding(&mut text, asked.query, &finding)?;
            Ok(Output {
                outcome: Outcome::NotFound,
                text,
            })
        }
    }
}

/// A run as a chart.
fn chart_page<F: Files>(
    loaded: Loaded<'_>,
    run: RunOf<'_>,
    look: Look,
    files: &mut F,
) -> Result<Output, Outcome>
    requires { IsReadable (protocol_of loaded.protocol.now) }
{
    match run {
        RunOf::File(name) => {
            let steps = load_run(loaded.source.alloc, name, files)?;
            Ok(whole(chart_of(loaded, &steps, look)?))
        }
        RunOf::Attack(asked) => attack_chart(loaded, asked, look),
    }
}

/// What can happen.
fn reach_page(loaded: Loaded<'_>, budget: u32, with_runs: bool) -> Result<Output, Outcome>
    requires { IsReadable (protocol_of loaded.protocol.now) }
{
    let reaching = Reaching {
        alloc: loaded.source.alloc,
        protocol: loaded.protocol,
        budget: u64::from(budget),
        with_runs,
    };
    let mut text = Vec::new(loaded.source.alloc);
    let outcome = if put_reach(&mut text, &reaching)? {
        Outcome::Shown
    } else {
        Outcome::NotFound
    };
    Ok(Output { outcome, text })
}

/// The report of a certificate of a query, or why none was found.
fn certificate_page(loaded: Loaded<'_>, asked: CertificateOf) -> Result<Output, Outcome>
    requires { IsReadable (protocol_of loaded.protocol.now) }
    ensures { IfOk result (IsCertificatePage (protocol_of loaded.entry.protocol.now)
        asked.query asked.format) }
{
    need_query(loaded.protocol, asked.query)?;
    let search = Search {
        alloc: loaded.source.alloc,
        protocol: loaded.protocol,
        query: asked.query,
        budget: asked.budget,
    };
    let found = searched(&search)?;
    let page = found_page(&search, &found, asked.format);
    drop(found);
    Ok(page?)
}

/// A text that shows all that is asked for.
fn whole(text: Vec<u8>) -> Output {
    Output {
        outcome: Outcome::Shown,
        text,
    }
}

/// What is to be shown of a protocol.
fn shown<F: Files>(
    loaded: Loaded<'_>,
    command: Command<'_>,
    files: &mut F,
) -> Result<Output, Outcome>
    requires readable { IsReadable (protocol_of loaded.protocol.now) }
    requires names { HasNames (protocol_of loaded.protocol.now) }
    ensures { IfOk result (IsPageOf (protocol_of loaded.entry.protocol.now)
        (outside F.held F.faults F.loads files.old files.new) command.entry) }
{
    match command {
        Command::Points => Ok(whole(points_of(loaded)?)),
        Command::Log(asked) => Ok(whole(log_of(loaded, asked)?)),
        Command::Warn { is_strict } => Ok(warn_page(loaded, is_strict)?),
        Command::Draw { run, look } => chart_page(loaded, run, look, files),
        Command::Why(asked) => Ok(whole(reason_of(loaded, asked)?)),
        Command::Attack(asked) => attack_page(loaded, asked),
        Command::Reach { budget, with_runs } => reach_page(loaded, budget, with_runs),
        Command::Certify(asked) => certificate_page(loaded, asked),
        Command::Check { report } => {
            check_page(loaded.source.alloc, loaded.protocol, report, files)
        }
    }
}

/// What is to be shown of the protocol that the bytes of a file spell.
fn shown_of<F: Files>(
    alloc: Global,
    bytes: &[u8],
    command: Command<'_>,
    files: &mut F,
) -> Result<Output, Outcome>
    ensures { IfOk result (IsPageOfText bytes.now
        (outside F.held F.faults F.loads files.old files.new) command.entry) }
{
    match read(alloc, bytes) {
        Err(why) => Err(refused_protocol(bytes, why)),
        Ok(reading) => {
            let source = Source {
                alloc,
                bytes,
                tokens: &reading.tokens,
                sketch: &reading.sketch,
            };
            let loaded = Loaded {
                source,
                protocol: &reading.protocol,
            };
            let page = shown(loaded, command, files);
            drop(reading);
            page
        }
    }
}

/// What is asked, and the files that it names, come to: the text that is shown, or why nothing is.
pub(crate) fn page<F: Files>(
    alloc: Global,
    asked: Request<'_>,
    files: &mut F,
) -> Result<Output, Outcome> {
    let bytes = load_protocol(asked.file, files)?;
    shown_of(alloc, &bytes, asked.command, files)
}
