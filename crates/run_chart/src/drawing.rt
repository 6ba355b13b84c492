//! A run drawn: replayed first, and then made once more step by step.

ghost use Rattle.std.specs.Prelude.{◌≡◌, ◌+◌, ◌<◌, ◌≤◌, ◌^◌, [], ◌∷◌, ◌++◌, length, map, IfOk, OnOk};
ghost use Rattle.pi_tree.specs.Protocols.{protocol_of};
ghost use Rattle.pi_configurations.specs.Configurations.{IsConfigurationOf};
ghost use Rattle.pi_model.specs.Steps.{step_of};
ghost use Rattle.run_replay.specs.Limits.{IsLimited};
ghost use Rattle.run_chart.specs.Rows.{query_in, told_by, told_of, told_at, told_from, violated_at, violations};
ghost use Rattle.run_chart.specs.Rows as told;
ghost use Rattle.run_chart.specs.Drawn.{HasRows, IsDrawnOf};

use crate::chart::{Chart, Head, Origin, Row, Shape};
use crate::grounds::{point_of, put_ground};
use crate::legend::Legend;
use crate::rows::{Made, add_thread, note_roles, row_of, thread_of};
use crate::texts::Text;
use pi_model::{ApplyError, Conf, Step, StepError, apply, start};
use pi_tree::{Process, Protocol, Term};
use protocol_text::{Spot, VariableWords, spots};
use run_replay::{Firsts, Replayed, replay};
use std::alloc::{AllocError, Global};

/// How many steps are drawn at most.
pub const MOST_STEPS: usize = 2_000;

/// What is drawn of a run.
#[derive(Drop)]
pub enum Drawn {
    /// The chart of a run that replays.
    Chart(Chart),
    /// The number of the first step that is refused, from 1, and why.
    Stuck(u64, StepError),
    /// The run has more steps than are drawn.
    TooLong,
}

/// A protocol, in which words it is drawn, and since when each query is violated.
#[derive(Clone, Copy)]
pub(crate) struct Setting<'a> {
    pub(crate) alloc: Global,
    pub(crate) protocol: &'a Protocol,
    pub(crate) variables: &'a VariableWords,
    pub(crate) firsts: &'a Firsts,
    /// What stands at each point.
    pub(crate) spots: &'a [Spot<'a>],
    /// The number of the free name that is the one public channel, where there is one alone.
    pub(crate) common: Option<u32>,
}

impl<'a> Setting<'a> {
    /// What stands at the point of that number.
    pub(crate) fn node(&self, point: u32) -> Option<&'a Process> {
        match self.spots.get((point as usize).wrapping_sub(1)) {
            None => None,
            Some(spot) => Some(spot.node),
        }
    }
}

/// The public free name that is the channel of an input or an output, where it is one.
fn channel_at(protocol: &Protocol, node: &Process) -> Option<u32> {
    match node {
        Process::Output(Term::Free(number), _, _) | Process::Input(Term::Free(number), _, _) => {
            let frees = &protocol.frees;
            match frees.items.get((*number as usize).wrapping_sub(1)) {
                Some(declared) if declared.public => Some(*number),
                _ => None,
            }
        }
        _ => None,
    }
}

/// The public free name that is a channel of the process, where there is one alone.
fn common_channel(protocol: &Protocol, spots: &[Spot<'_>]) -> Option<u32> {
    let mut common = None;
    for spot in spots {
        if let Some(number) = channel_at(protocol, spot.node) {
            if common.is_some() && common != Some(number) {
                return None;
            }
            common = Some(number);
        }
    }
    common
}

/// A chart without rows.
fn empty_chart(alloc: Global) -> Result<Chart, AllocError>
    ensures { IfOk result (λ chart. map told_of chart.rows.items ≡ []) }
{
    let mut threads = Vec::new(alloc);
    threads.push(Head {
        origin: Origin::Main,
        role: Vec::new(alloc),
    })?;
    Ok(Chart {
        threads,
        rows: Vec::new(alloc),
        legend: Legend::new(alloc),
    })
}

/// Adds a row without words.
fn add_bare(alloc: Global, rows: &mut Vec<Row>, step: u64, shape: Shape) -> Result<(), AllocError>
    ensures { OnOk result (map told_of rows.new.items ≡
        map told_of rows.old.items ++ told_by (query_in shape) step ∷ []) }
{
    let text = Vec::new(alloc);
    rows.push(Row { step, shape, text })?;
    Ok(())
}

/// Adds the row of the query of that number, if that step is the first at which it is violated.
fn add_violation(
    alloc: Global,
    rows: &mut Vec<Row>,
    step: u64,
    query: u64,
    first: Option<u64>,
) -> Result<(), AllocError>
    ensures { OnOk result (map told_of rows.new.items ≡
        map told_of rows.old.items ++ violated_at step query first) }
{
    match first {
        Some(first) if first == step => add_bare(alloc, rows, step, Shape::Violation(query)),
        _ => Ok(()),
    }
}

/// Adds the rows of the queries that are violated since that step.
fn add_violations(setting: Setting<'_>, rows: &mut Vec<Row>, step: u64) -> Result<(), AllocError>
    ensures { OnOk result (map told_of rows.new.items ≡
        map told_of rows.old.items ++ violations step 1 setting.entry.firsts.now) }
{
    let firsts = setting.firsts;
    for index in 0..firsts.items.len() {
        add_violation(
            setting.alloc,
            rows,
            step,
            index as u64 + 1,
            firsts.items[index],
        )?;
    }
    Ok(())
}

/// What a step stands on, in the configuration before it.
fn ground_of(setting: Setting<'_>, legend: &mut Legend, conf: &Conf, step: &Step) -> Text {
    let mut ground = Text::new(setting.alloc);
    put_ground(&mut ground, legend, setting, conf, (step, thread_of(step)));
    ground
}

/// Adds the row of a step that was made.
fn add_made(chart: &mut Chart, made: Made<'_>, number: u64) -> Result<(), AllocError>
    ensures { OnOk result (map told_of chart.new.rows.items ≡
        map told_of chart.old.rows.items ++ told.Made number ∷ []) }
{
    add_thread(&mut chart.threads, made)?;
    let row = row_of(&mut chart.legend, made, number)?;
    chart.rows.push(row)?;
    Ok(())
}

/// Makes the step of that number, and adds its row. (One that is refused changes nothing; here none is.)
fn add_step(
    setting: Setting<'_>,
    chart: &mut Chart,
    conf: &mut Conf,
    step: &Step,
    number: u64,
) -> Result<(), AllocError>
    requires limits { IsLimited (protocol_of setting.protocol.now) }
    requires of_protocol { IsConfigurationOf (protocol_of setting.protocol.now) conf.old }
    requires fewer { conf.old.steps < 2 ^ 32 }
    ensures of_protocol { IsConfigurationOf (protocol_of setting.entry.protocol.now) conf.new }
    ensures steps { conf.new.steps ≤ conf.old.steps + 1 }
    ensures row { OnOk result (map told_of chart.new.rows.items ≡
        map told_of chart.old.rows.items ++ told.Made number ∷ []) }
{
    note_roles(&mut chart.threads, setting, conf, step)?;
    let ground = ground_of(setting, &mut chart.legend, conf, step);
    let point = point_of(conf, thread_of(step));
    if let Err(ApplyError::Memory(error)) = apply(setting.alloc, setting.protocol, conf, step) {
        return Err(error);
    }
    let made = Made {
        setting,
        conf,
        step,
        point,
        ground: &ground,
    };
    add_made(chart, made, number)
}

/// Makes the step of that number, and adds its row and those of the queries that are violated since then.
fn add_told(
    setting: Setting<'_>,
    chart: &mut Chart,
    conf: &mut Conf,
    step: &Step,
    number: u64,
) -> Result<(), AllocError>
    requires limits { IsLimited (protocol_of setting.protocol.now) }
    requires of_protocol { IsConfigurationOf (protocol_of setting.protocol.now) conf.old }
    requires fewer { conf.old.steps < 2 ^ 32 }
    ensures of_protocol { IsConfigurationOf (protocol_of setting.entry.protocol.now) conf.new }
    ensures steps { conf.new.steps ≤ conf.old.steps + 1 }
    ensures rows { OnOk result (map told_of chart.new.rows.items ≡
        map told_of chart.old.rows.items ++ told_at setting.entry.firsts.now number) }
{
    add_step(setting, chart, conf, step, number)?;
    add_violations(setting, &mut chart.rows, number)
}

/// Adds the rows of the start.
fn add_start(setting: Setting<'_>, chart: &mut Chart) -> Result<(), AllocError>
    ensures { OnOk result (map told_of chart.new.rows.items ≡
        map told_of chart.old.rows.items ++ told_at setting.entry.firsts.now 0) }
{
    add_bare(setting.alloc, &mut chart.rows, 0, Shape::Begin(1))?;
    add_violations(setting, &mut chart.rows, 0)
}

/// Adds the rows of all steps, from where the run starts.
fn add_steps(
    setting: Setting<'_>,
    chart: &mut Chart,
    conf: &mut Conf,
    steps: &[Step],
) -> Result<(), AllocError>
    requires limits { IsLimited (protocol_of setting.protocol.now) }
    requires of_protocol { IsConfigurationOf (protocol_of setting.protocol.now) conf.old }
    requires start { conf.old.steps ≡ 0 }
    requires fewer { length steps.now < 2 ^ 32 }
    ensures { OnOk result (map told_of chart.new.rows.items ≡
        map told_of chart.old.rows.items ++
        told_from setting.entry.firsts.now 1 (length steps.now)) }
{
    for index in 0..steps.len() {
        add_told(setting, chart, conf, &steps[index], index as u64 + 1)?;
    }
    Ok(())
}

/// Adds the rows of steps that replay.
fn add_run(setting: Setting<'_>, chart: &mut Chart, steps: &[Step]) -> Result<(), AllocError>
    requires limits { IsLimited (protocol_of setting.protocol.now) }
    requires fewer { length steps.now < 2 ^ 32 }
    ensures { OnOk result (map told_of chart.new.rows.items ≡
        map told_of chart.old.rows.items ++
        told_from setting.entry.firsts.now 1 (length steps.now)) }
{
    let mut conf = start(setting.alloc, setting.protocol)?;
    let added = add_steps(setting, chart, &mut conf, steps);
    drop(conf);
    added
}

/// The chart of steps that replay.
fn chart_of(setting: Setting<'_>, steps: &[Step]) -> Result<Chart, AllocError>
    requires limits { IsLimited (protocol_of setting.protocol.now) }
    requires fewer { length steps.now < 2 ^ 32 }
    ensures { IfOk result (HasRows setting.entry.firsts.now (length steps.now)) }
{
    let mut chart = empty_chart(setting.alloc)?;
    add_start(setting, &mut chart)?;
    add_run(setting, &mut chart, steps)?;
    chart.legend.spell(setting.alloc, setting.protocol)?;
    Ok(chart)
}

/// The chart of a run that replays, whose queries are violated since then.
fn replayed_chart(
    alloc: Global,
    protocol: &Protocol,
    variables: &VariableWords,
    steps: &[Step],
    firsts: &Firsts,
) -> Result<Chart, AllocError>
    requires limits { IsLimited (protocol_of protocol.now) }
    requires fewer { length steps.now < 2 ^ 32 }
    ensures { IfOk result (HasRows firsts.now (length steps.now)) }
{
    let spots = spots(alloc, protocol)?;
    let setting = Setting {
        alloc,
        protocol,
        variables,
        firsts,
        spots: &spots,
        common: common_channel(protocol, &spots),
    };
    chart_of(setting, steps)
}

/// The chart of a run, where it replays, or the first step that is refused. `Err` comes only for want of memory.
#[tactic(auto, using(crate::proofs::Replaying::of_drawn))]
pub fn draw(
    alloc: Global,
    protocol: &Protocol,
    variables: &VariableWords,
    steps: &[Step],
) -> Result<Drawn, AllocError>
    requires { IsLimited (protocol_of protocol.now) }
    ensures { IfOk result (λ drawn. IsDrawnOf (protocol_of protocol.now) (map step_of steps.now)
        drawn) }
{
    if steps.len() > MOST_STEPS {
        return Ok(Drawn::TooLong);
    }
    match replay(alloc, protocol, steps)? {
        Replayed::Done(end, firsts) => {
            drop(end);
            let chart = replayed_chart(alloc, protocol, variables, steps, &firsts)?;
            Ok(Drawn::Chart(chart))
        }
        Replayed::Stuck(number, error) => Ok(Drawn::Stuck(number, error)),
    }
}
