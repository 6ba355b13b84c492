//! Threads of a configuration.

ghost use Rattle.std.specs.Prelude.{◌≡◌, [], ◌∷◌, ◌++◌, map, option_map, OnOk, OnErr};
ghost use Rattle.spec_calculus.specs.Points.{numbered, replaced};
ghost use Rattle.pi_configurations.specs.Threads.{thread_of};
ghost use Rattle.pi_configurations.specs.Moves.{moved, moved_to, placed, entered, entered_at};

use std::alloc::AllocError;
use std::marker::Model;
use term_values::Environment;

/// A thread: it stands at a point of the main process with what it has bound, or it has ended.
pub enum Thread {
    At(u32, Environment),
    Ended,
}

impl Drop for Thread {
    fn drop(self) {
        match self {
            Thread::At(_, part) => drop(part),
            Thread::Ended => {}
        }
    }
}

/// Threads in order; they are numbered from 1.
pub struct Threads {
    pub items: Vec<Thread>,
}

impl Drop for Threads {
    fn drop(self) {
        let Threads { items } = self;
        drop(items);
    }
}

impl Model for Threads {
    ghost use Rattle.std.specs.Prelude.{List, map};
    ghost use Rattle.spec_calculus.specs.Runs as calculus;
    ghost use Rattle.spec_calculus.specs.Codes.{coded_threads};

    ghost Value = { List calculus.Thread };

    ghost coded = { coded_threads };

    ghost use Rattle.pi_configurations.specs.Threads.{thread_of};

    ghost view = { λ a. map thread_of a.items.items };
}

impl Thread {
    /// Goes to another point, with the same bindings; a thread that has ended stays so.
    fn advance(&mut self, point: u32)
        ensures { thread_of self.new ≡ moved_to point (thread_of self.old) }
    {
        match self {
            Thread::At(at, _) => *at = point,
            Thread::Ended => {}
        }
    }
}

/// The phase that the point waits for, 0 where it waits for none; `None` where the list has no such point.
#[tactic(auto, using(crate::proofs::ThreadItems::of_points_listed))]
fn awaited_at(phases: &[u32], point: u32) -> Option<u32>
    ensures { result ≡ numbered phases.now point }
{
    match point.checked_sub(1) {
        None => None,
        Some(index) => match phases.get(index as usize) {
            None => None,
            Some(phase) => Some(*phase),
        },
    }
}

impl Thread {
    /// Where the thread is when the phase of that number begins, by the phase that each point waits for: after its point
    /// where that waits for this phase, and there where it waits for a later one. Otherwise it ends.
    #[tactic(auto, using(std::proofs::lemmas::Bool::Decides::nat_tests))]
    fn place_in(&self, phases: &[u32], number: u32) -> Option<u32>
        ensures { placed result (thread_of self.now) ≡
            entered phases.now number (thread_of self.now) }
    {
        match self {
            Thread::Ended => None,
            Thread::At(point, _) => match awaited_at(phases, *point) {
                None => None,
                Some(awaited) => {
                    if awaited == number {
                        Some(point.saturating_add(1))
                    } else if number < awaited {
                        Some(*point)
                    } else {
                        None
                    }
                }
            },
        }
    }
}

impl Threads {
    /// The thread of that number, if there is one.
    #[tactic(auto, using(term_values::proofs::Items::by_number))]
    pub fn get(&self, number: u32) -> Option<&Thread>
        ensures { option_map (λ t. thread_of t.now) result ≡ numbered self.now number }
    {
        match number.checked_sub(1) {
            None => None,
            Some(index) => self.items.get(index as usize),
        }
    }

    /// The thread of that number becomes this one; where there is none nothing changes.
    #[tactic(auto, using(crate::proofs::ThreadItems::of_threads))]
    pub fn replace(&mut self, number: u32, thread: Thread)
        ensures { self.new ≡ replaced self.old number (thread_of thread) }
    {
        if number == 0 {
            return;
        }
        let index = (number - 1) as usize;
        if index < self.items.len() {
            self.items[index] = thread;
        }
    }

    /// The thread of that number goes to another point, with the same bindings.
    #[tactic(auto, using(crate::proofs::ThreadItems::of_threads))]
    pub fn advance(&mut self, number: u32, point: u32)
        ensures { self.new ≡ moved self.old number point }
    {
        if number == 0 {
            return;
        }
        let index = (number - 1) as usize;
        if index < self.items.len() {
            self.items[index].advance(point);
        }
    }

    /// A new last thread.
    pub fn begin(&mut self, thread: Thread) -> Result<(), AllocError>
        ensures begun { OnOk result (self.new ≡ self.old ++ thread_of thread ∷ []) }
        ensures unchanged { OnErr result (self.new ≡ self.old) }
    {
        self.items.push(thread)?;
        Ok(())
    }

    /// The thread at the index, as it is when the phase of that number begins; where there is none nothing changes.
    #[tactic(auto, using(crate::proofs::ThreadItems::of_phases))]
    fn enter_at(&mut self, index: usize, phases: &[u32], number: u32)
        ensures { self.new ≡ entered_at phases.now number self.old index }
    {
        if index < self.items.len() {
            match self.items[index].place_in(phases, number) {
                None => self.items[index] = Thread::Ended,
                Some(point) => self.items[index].advance(point),
            }
        }
    }

    /// All threads, as they are when the phase of that number begins, by the phase that each point waits for, 0 where it
    /// waits for none. A thread that waits for this phase goes on, one that waits for a later phase stays, and every other
    /// ends.
    #[tactic(auto, using(crate::proofs::ThreadItems::of_phases))]
    pub fn enter(&mut self, phases: &[u32], number: u32)
        ensures { self.new ≡ map (entered phases.now number) self.old }
    {
        for index in 0..self.items.len() {
            self.enter_at(index, phases, number);
        }
    }
}
