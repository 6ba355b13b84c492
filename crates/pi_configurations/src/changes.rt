//! What a step changes in a configuration, once it is known to be possible.

ghost use Rattle.std.specs.Prelude.{◌≡◌, [], ◌∷◌, ◌++◌, ◌+◌, ◌^◌, ◌<◌, OnOk, OnErr};
ghost use Rattle.pi_tree.specs.Values.{value_of};
ghost use Rattle.pi_configurations.specs.Changes.{changed};
ghost use Rattle.pi_configurations.specs.Configurations.{configuration_of};
ghost use Rattle.held_entries.specs.Entries.{held_of};
ghost use Rattle.pi_configurations.specs.Happenings.{performed_of};
ghost use Rattle.pi_configurations.specs.Moves.{entered_in};

use crate::configurations::Conf;
use crate::happenings::Happened;
use crate::threads::Thread;
use held_entries::Held;
use pi_tree::Value;
use std::alloc::AllocError;

/// A change of a configuration. Numbers are those of threads, then of points.
#[derive(Drop)]
pub enum Change {
    /// The value becomes known.
    Learn(Value),
    /// A new name of the attacker becomes known.
    Name,
    /// The thread goes to the point, and this is a new last thread.
    Split(u32, u32, Thread),
    /// This is a new last thread.
    Begin(Thread),
    /// The thread becomes this one, which binds the next name.
    Make(u32, Thread),
    /// The thread goes to the point, and another thread becomes this one.
    Pass(u32, u32, u32, Thread),
    /// The thread goes to the point, and the value becomes known.
    Hear(u32, u32, Value),
    /// The thread becomes this one.
    Replace(u32, Thread),
    /// The thread goes to the point.
    Advance(u32, u32),
    /// The thread goes to the point, and the event is performed.
    Mark(u32, u32, Happened),
    /// The thread goes to the point, and the entry is written.
    Put(u32, u32, Held),
    /// The phase of that number begins, where each point waits for the phase that is listed, 0 for none.
    Next(u32, Vec<u32>),
}

impl Conf {
    /// The value becomes known.
    fn learn(&mut self, value: Value) -> Result<(), AllocError>
        ensures learned { OnOk result (self.new ≡
            record self.old { known = self.old.known ++ value_of value ∷ [] }) }
        ensures unchanged { OnErr result (self.new ≡ self.old) }
    {
        self.known.push(value)?;
        Ok(())
    }

    /// The event is performed.
    fn perform(&mut self, happened: Happened) -> Result<(), AllocError>
        ensures performed { OnOk result (self.new ≡
            record self.old { events = self.old.events ++ performed_of happened ∷ [] }) }
        ensures unchanged { OnErr result (self.new ≡ self.old) }
    {
        self.events.items.push(happened)?;
        Ok(())
    }

    /// The entry is written.
    fn write(&mut self, held: Held) -> Result<(), AllocError>
        ensures written { OnOk result (self.new ≡
            record self.old { entries = self.old.entries ++ held_of held ∷ [] }) }
        ensures unchanged { OnErr result (self.new ≡ self.old) }
    {
        self.entries.push(held)
    }

    /// A name of the attacker becomes known.
    fn learn_name(&mut self) -> Result<(), AllocError>
        requires { self.old.next + 1 < 2 ^ 64 }
        ensures named { OnOk result (configuration_of self.new ≡
            changed Change.Name (configuration_of self.old)) }
        ensures steps { OnOk result (self.new.steps ≡ self.old.steps) }
        ensures unchanged { OnErr result (self.new ≡ self.old) }
    {
        self.learn(Value::Fresh(self.next))?;
        self.next += 1;
        Ok(())
    }

    /// The thread goes to the point, and another begins.
    fn split(&mut self, number: u32, point: u32, begun: Thread) -> Result<(), AllocError>
        ensures split { OnOk result (configuration_of self.new ≡
            changed (Change.Split number point begun) (configuration_of self.old)) }
        ensures steps { OnOk result (self.new.steps ≡ self.old.steps) }
        ensures unchanged { OnErr result (self.new ≡ self.old) }
    {
        self.threads.begin(begun)?;
        self.threads.advance(number, point);
        Ok(())
    }

    /// The thread goes to the point, and the value becomes known.
    fn hear(&mut self, number: u32, point: u32, value: Value) -> Result<(), AllocError>
        ensures heard { OnOk result (configuration_of self.new ≡
            changed (Change.Hear number point value) (configuration_of self.old)) }
        ensures steps { OnOk result (self.new.steps ≡ self.old.steps) }
        ensures unchanged { OnErr result (self.new ≡ self.old) }
    {
        self.learn(value)?;
        self.threads.advance(number, point);
        Ok(())
    }

    /// The thread goes to the point, and the event is performed.
    fn mark(&mut self, number: u32, point: u32, happened: Happened) -> Result<(), AllocError>
        ensures marked { OnOk result (configuration_of self.new ≡
            changed (Change.Mark number point happened) (configuration_of self.old)) }
        ensures steps { OnOk result (self.new.steps ≡ self.old.steps) }
        ensures unchanged { OnErr result (self.new ≡ self.old) }
    {
        self.perform(happened)?;
        self.threads.advance(number, point);
        Ok(())
    }

    /// The thread goes to the point, and the entry is written.
    fn put(&mut self, number: u32, point: u32, held: Held) -> Result<(), AllocError>
        ensures put { OnOk result (configuration_of self.new ≡
            changed (Change.Put number point held) (configuration_of self.old)) }
        ensures steps { OnOk result (self.new.steps ≡ self.old.steps) }
        ensures unchanged { OnErr result (self.new ≡ self.old) }
    {
        self.write(held)?;
        self.threads.advance(number, point);
        Ok(())
    }

    /// The phase of that number begins.
    fn enter(&mut self, number: u32, phases: &[u32])
        ensures entered { configuration_of self.new ≡
            entered_in phases.now number (configuration_of self.old) }
        ensures steps { self.new.steps ≡ self.old.steps }
    {
        self.phase = number;
        self.threads.enter(phases, number);
    }

    /// The change is made whole, or for want of memory not at all.
    pub fn change(&mut self, change: Change) -> Result<(), AllocError>
        requires { self.old.next + 1 < 2 ^ 64 }
        ensures changed { OnOk result (configuration_of self.new ≡
            changed change (configuration_of self.old)) }
        ensures steps { OnOk result (self.new.steps ≡ self.old.steps) }
        ensures unchanged { OnErr result (self.new ≡ self.old) }
    {
        match change {
            Change::Learn(value) => self.learn(value),
            Change::Name => self.learn_name(),
            Change::Split(number, point, begun) => self.split(number, point, begun),
            Change::Begin(begun) => self.threads.begin(begun),
            Change::Make(number, thread) => {
                self.threads.replace(number, thread);
                self.next += 1;
                Ok(())
            }
            Change::Pass(sender, point, receiver, thread) => {
                self.threads.advance(sender, point);
                self.threads.replace(receiver, thread);
                Ok(())
            }
            Change::Hear(number, point, value) => self.hear(number, point, value),
            Change::Replace(number, thread) => {
                self.threads.replace(number, thread);
                Ok(())
            }
            Change::Advance(number, point) => {
                self.threads.advance(number, point);
                Ok(())
            }
            Change::Mark(number, point, happened) => self.mark(number, point, happened),
            Change::Put(number, point, held) => self.put(number, point, held),
            Change::Next(number, phases) => {
                self.enter(number, &phases);
                Ok(())
            }
        }
    }
}
