//! A run so far: what a plan's names are in it, and one more step.

ghost use Rattle.std.specs.Prelude.{◌^◌, ◌<◌, length};
ghost use Rattle.spec_calculus.specs.Points.{nodes};
ghost use Rattle.spec_well_formed.specs.Limits.{IsWithinLimits};
ghost use Rattle.pi_tree.specs.Processes.{process_of};
ghost use Rattle.pi_tree.specs.Protocols.{protocol_of};
ghost use Rattle.pi_configurations.specs.Configurations.{IsConfigurationOf};
ghost use Rattle.pi_model.specs.PointProps.{point_props};

use crate::bounds::MOST_STEPS;
use destructor_rules::is_same;
use pi_model::{ApplyError, Conf, Step, apply, start};
use pi_tree::{Protocol, Value, Values};
use std::alloc::{AllocError, Global};

/// A name of the plan by its number there, and what it is in the run.
struct Named {
    number: u64,
    value: Value,
}

impl Drop for Named {
    fn drop(self) {
        let Named { number: _, value } = self;
        drop(value);
    }
}

/// A run so far: where it stands, its steps, and what the plan's names are in it, those of restrictions and those of the attacker.
pub(crate) struct Run<'a> {
    pub alloc: Global,
    pub protocol: &'a Protocol,
    pub conf: Conf,
    pub steps: Vec<Step>,
    /// How many of the known values had their parts taken.
    pub parted: usize,
    made: Vec<Named>,
    fresh: Vec<Named>,
    ghost of_protocol: { IsConfigurationOf (protocol_of protocol.now) conf } by { Prim.hlevel point_props },
    ghost points: { length (nodes (process_of protocol.now.main)) < 2 ^ 32 },
}

impl Drop for Run<'_> {
    fn drop(self) {
        let Run {
            alloc,
            protocol: _,
            conf,
            steps,
            parted: _,
            made,
            fresh,
        } = self;
        drop(alloc);
        drop(conf);
        drop(steps);
        drop(made);
        drop(fresh);
    }
}

/// A copy of the value of the name of that number, if there is one.
fn value_named(alloc: Global, names: &[Named], number: u64) -> Result<Option<Value>, AllocError> {
    'each: for name in names {
        if name.number == number {
            let value = name.value.copy(alloc)?;
            return Ok(Some(value));
        }
    }
    Ok(None)
}

impl<'a> Run<'a> {
    /// Where each run of the protocol starts.
    pub(crate) fn start(alloc: Global, protocol: &'a Protocol) -> Result<Run<'a>, AllocError>
        requires { IsWithinLimits (protocol_of protocol.now) }
    {
        let conf = start(alloc, protocol)?;
        Ok(Run {
            alloc,
            protocol,
            conf,
            steps: Vec::new(alloc),
            parted: 0,
            made: Vec::new(alloc),
            fresh: Vec::new(alloc),
        })
    }

    /// One more step, and whether it was possible.
    pub(crate) fn step(&mut self, step: Step) -> Result<bool, AllocError> {
        if self.conf.steps() >= MOST_STEPS {
            return Ok(false);
        }
        match apply(self.alloc, self.protocol, &mut self.conf, &step) {
            Ok(()) => {
                self.steps.push(step)?;
                Ok(true)
            }
            Err(ApplyError::Refused(_)) => Ok(false),
            Err(ApplyError::Memory(error)) => Err(error),
        }
    }

    /// The steps.
    pub(crate) fn into_steps(self) -> Vec<Step> {
        let Run {
            alloc,
            protocol: _,
            conf,
            steps,
            parted: _,
            made,
            fresh,
        } = self;
        drop(alloc);
        drop(conf);
        drop(made);
        drop(fresh);
        steps
    }

    /// A restriction of that thread, which stands at the point, makes the plan's name of that number.
    pub(crate) fn make(
        &mut self,
        thread: u32,
        point: u32,
        number: u64,
    ) -> Result<bool, AllocError> {
        let value = Value::Made(point, self.conf.next);
        if !self.step(Step::Make(thread))? {
            return Ok(false);
        }
        self.made.push(Named { number, value })?;
        Ok(true)
    }

    /// The attacker makes the plan's name of that number.
    pub(crate) fn make_own(&mut self, number: u64) -> Result<bool, AllocError> {
        let value = Value::Fresh(self.conf.next);
        if !self.step(Step::Fresh)? {
            return Ok(false);
        }
        self.fresh.push(Named { number, value })?;
        Ok(true)
    }

    /// What a value of the plan is in the run; none where one of its names isn't made yet.
    #[cycle(actual)]
    pub(crate) fn actual(&self, value: &Value) -> Result<Option<Value>, AllocError> {
        match value {
            Value::Free(number) => Ok(Some(Value::Free(*number))),
            Value::Made(_, number) => value_named(self.alloc, &self.made, *number),
            Value::Fresh(number) => value_named(self.alloc, &self.fresh, *number),
            Value::App(constructor, arguments) => match self.actuals(arguments)? {
                None => Ok(None),
                Some(values) => Ok(Some(Value::App(*constructor, values))),
            },
            Value::Tuple(parts) => match self.actuals(parts)? {
                None => Ok(None),
                Some(values) => Ok(Some(Value::Tuple(values))),
            },
        }
    }

    /// What values of the plan are in the run; none where one of their names isn't made yet.
    #[cycle(actual)]
    pub(crate) fn actuals(&self, values: &Values) -> Result<Option<Values>, AllocError> {
        let mut items = Vec::with_capacity(self.alloc, values.items.len())?;
        'each: for value in &values.items {
            match self.actual(value)? {
                None => return Ok(None),
                Some(found) => items.push(found)?,
            }
        }
        Ok(Some(Values { items }))
    }

    /// The number of the first known value that is this one, if it is known.
    pub(crate) fn place_of(&self, value: &Value) -> Option<u32> {
        'each: for (index, known) in self.conf.known.items.iter().enumerate() {
            if is_same(value, known) {
                return number_at(index);
            }
        }
        None
    }

    /// The number of the first known value that a value of the plan is, if it is known.
    pub(crate) fn known_place(&self, value: &Value) -> Result<Option<u32>, AllocError> {
        match self.actual(value)? {
            None => Ok(None),
            Some(found) => Ok(self.place_of(&found)),
        }
    }
}

/// The number, from 1, of what stands at the index; none where it is past 32 bits.
pub(crate) fn number_at(index: usize) -> Option<u32> {
    match u32::try_from(index) {
        Err(_) => None,
        Ok(place) => place.checked_add(1),
    }
}
