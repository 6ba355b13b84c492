//! What the attacker can build of what it knows, and what it builds, reduces and takes apart.

use crate::bounds::MOST_KNOWN;
use crate::plan::Reduction;
use crate::running::{Run, number_at};
use pi_model::{Numbers, Step};
use pi_tree::{Declared, Protocol, Value, Values};
use std::alloc::AllocError;

/// The declared constructor of that number, if there is one.
fn declared(protocol: &Protocol, constructor: u32) -> Option<&Declared> {
    match constructor.checked_sub(1) {
        None => None,
        Some(index) => protocol.ctors.items.get(index as usize),
    }
}

/// Whether the attacker may apply the constructor.
fn is_public(protocol: &Protocol, constructor: u32) -> bool {
    match declared(protocol, constructor) {
        None => false,
        Some(declared) => declared.public,
    }
}

/// The parts of a data value; none of any other.
fn parts_of<'a>(protocol: &Protocol, value: &'a Value) -> Option<&'a Values> {
    match value {
        Value::Free(_) | Value::Made(..) | Value::Fresh(_) => None,
        Value::Tuple(parts) => Some(parts),
        Value::App(constructor, arguments) => match declared(protocol, *constructor) {
            None => None,
            Some(declared) => {
                if declared.is_data {
                    Some(arguments)
                } else {
                    None
                }
            }
        },
    }
}

impl Run<'_> {
    /// Whether the attacker knows a value of the plan, or can build it.
    #[cycle(can_build)]
    pub(crate) fn can_build(&self, value: &Value) -> Result<bool, AllocError> {
        if self.known_place(value)?.is_some() {
            return Ok(true);
        }
        match value {
            Value::Free(_) | Value::Made(..) => Ok(false),
            Value::Fresh(_) => Ok(true),
            Value::App(constructor, arguments) => {
                if !is_public(self.protocol, *constructor) {
                    return Ok(false);
                }
                self.can_build_all(arguments)
            }
            Value::Tuple(parts) => self.can_build_all(parts),
        }
    }

    /// Whether the attacker knows values of the plan, or can build them.
    #[cycle(can_build)]
    pub(crate) fn can_build_all(&self, values: &Values) -> Result<bool, AllocError> {
        'each: for value in &values.items {
            if !self.can_build(value)? {
                return Ok(false);
            }
        }
        Ok(true)
    }

    /// A step of the attacker's, and the number of the known value that it gives.
    fn learn(&mut self, step: Step) -> Result<Option<u32>, AllocError> {
        let count = self.conf.known.items.len();
        if self.step(step)? {
            return Ok(number_at(count));
        }
        Ok(None)
    }

    /// The attacker builds a value of the plan, unless it knows it; the number of the known value.
    #[cycle(build)]
    pub(crate) fn build(&mut self, value: &Value) -> Result<Option<u32>, AllocError> {
        if let Some(place) = self.known_place(value)? {
            return Ok(Some(place));
        }
        match value {
            Value::Free(_) | Value::Made(..) => Ok(None),
            Value::Fresh(number) => {
                let count = self.conf.known.items.len();
                if self.make_own(*number)? {
                    return Ok(number_at(count));
                }
                Ok(None)
            }
            Value::App(constructor, arguments) => self.apply_to(*constructor, arguments),
            Value::Tuple(parts) => self.apply_to(0, parts),
        }
    }

    /// The attacker applies the constructor, 0 for the tuple, to values of the plan, which it builds first.
    #[cycle(build)]
    fn apply_to(
        &mut self,
        constructor: u32,
        arguments: &Values,
    ) -> Result<Option<u32>, AllocError> {
        match self.build_all(arguments)? {
            None => Ok(None),
            Some(places) => self.learn(Step::Build(constructor, places)),
        }
    }

    /// The attacker builds values of the plan; their numbers.
    #[cycle(build)]
    pub(crate) fn build_all(&mut self, values: &Values) -> Result<Option<Numbers>, AllocError> {
        let mut items = Vec::with_capacity(self.alloc, values.items.len())?;
        'each: for value in &values.items {
            match self.build(value)? {
                None => return Ok(None),
                Some(place) => items.push(place)?,
            }
        }
        Ok(Some(Numbers { items }))
    }

    /// The attacker applies the rule of the destructor, if it has what it takes; whether it did.
    pub(crate) fn reduce(&mut self, reduction: &Reduction) -> Result<bool, AllocError> {
        if !self.can_build_all(&reduction.arguments)? {
            return Ok(false);
        }
        match self.build_all(&reduction.arguments)? {
            None => Ok(false),
            Some(places) => {
                let step = Step::Reduce(reduction.destructor, reduction.rule, places);
                self.step(step)
            }
        }
    }

    /// Which parts of the known value at the index aren't known, by their numbers.
    fn unknown_parts(&self, index: usize) -> Result<Vec<u32>, AllocError> {
        let mut numbers = Vec::new(self.alloc);
        let Some(value) = self.conf.known.items.get(index) else {
            return Ok(numbers);
        };
        let Some(parts) = parts_of(self.protocol, value) else {
            return Ok(numbers);
        };
        'each: for (position, part) in parts.items.iter().enumerate() {
            if self.place_of(part).is_none() {
                if let Some(number) = number_at(position) {
                    numbers.push(number)?;
                }
            }
        }
        Ok(numbers)
    }

    /// The attacker takes these parts of the known value of that number.
    fn take_these(&mut self, place: u32, numbers: &[u32]) -> Result<(), AllocError> {
        'each: for number in numbers {
            let _is_taken = self.step(Step::Part(place, *number))?;
        }
        Ok(())
    }

    /// The attacker takes all parts that it doesn't know, also of what it gets so.
    pub(crate) fn take_parts(&mut self) -> Result<(), AllocError> {
        'each: for index in self.parted..MOST_KNOWN {
            if index >= self.conf.known.items.len() {
                return Ok(());
            }
            self.parted = index + 1;
            let numbers = self.unknown_parts(index)?;
            if let Some(place) = number_at(index) {
                self.take_these(place, &numbers)?;
            }
        }
        Ok(())
    }
}
