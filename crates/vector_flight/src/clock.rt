ghost use Rattle.std.specs.Prelude.{◌≡◌, ℕ, ◌<◌, List, length, max, replicate, slice_index, slice_set, IfOk};
ghost use Rattle.causal_base.specs.declared.entry.Entry.{Entry};
ghost use Rattle.causal_base.specs.Clocks.{HasClocks};
ghost use Rattle.causal_base.specs.Journal.{delivered_by};
ghost use Rattle.causal_base.specs.Past.{HasEvent};

use causal_base::{Causal, EventId, Steps};
use std::alloc::{AllocError, Global};
use std::marker::{Brand, Model};
use std::sync::ledger::{Blank, Ledger};

/// A number for each trace. Contracts see it as the list of the numbers.
#[derive(Debug, Drop)]
pub struct Clock {
    numbers: Vec<u32>,
}

impl Model for Clock {
    ghost use Rattle.std.specs.Prelude.{ℕ, List};

    ghost Value = { List ℕ };

    ghost view = { λ c. c.numbers.items };
}

impl Clock {
    /// All zeros. It fails where there is no memory.
    pub fn zeros(alloc: Global, traces: usize) -> Result<Clock, AllocError>
        ensures { IfOk result (λ clock. clock ≡ replicate traces 0) }
    {
        Ok(Clock {
            numbers: vec![in alloc; 0; traces]?,
        })
    }

    /// The numbers, in the order of the traces.
    pub fn numbers(&self) -> &[u32]
        ensures { result.now ≡ self.now }
    {
        &self.numbers
    }

    /// The number for a trace.
    pub fn number(&self, trace: u32) -> u32
        requires { trace < length self.now }
        ensures { result ≡ slice_index self.now trace }
    {
        self.numbers[trace as usize]
    }

    /// Makes this the number for a trace.
    pub fn set(&mut self, trace: u32, number: u32)
        requires { trace < length self.old }
        ensures { self.new ≡ slice_set self.old trace number }
    {
        self.numbers[trace as usize] = number;
    }

    /// Takes the numbers of another clock of as many traces.
    pub fn copy_from(&mut self, other: &Clock)
        requires { length self.old ≡ length other.now }
        ensures { self.new ≡ other.now }
    {
        self.numbers.copy_from_slice(&other.numbers);
    }

    /// Raises each number to that of another clock of as many traces, where that is greater.
    pub fn raise_to(&mut self, other: &Clock)
        requires { length self.old ≡ length other.now }
        ensures length { length self.new ≡ length self.old }
        ensures greater { (trace : ℕ) → slice_index self.new trace
            ≡ max (slice_index self.old trace) (slice_index other.now trace) }
    {
        raise_each(&mut self.numbers, &other.numbers);
    }

    /// Takes the numbers of the clock of a delivered event, in one walk.
    pub fn rebuild<C: Causal>(&mut self, delivered: &C, id: EventId)
        requires { length self.old ≡ (C.types delivered.now).traces }
        ensures length { length self.new ≡ length self.old }
        ensures clock { (journal : List Entry) → C.stands_for delivered.now journal
            → HasEvent (delivered_by journal) id
            → HasClocks (C.types delivered.now) (delivered_by journal) id self.new }
    {
        write_clock::<C, Brand>(delivered, id, &mut self.numbers, Blank::new(1));
    }
}

/// Raises each number to the other one at its place, where that is greater.
fn raise_each(numbers: &mut [u32], others: &[u32])
    requires { length numbers.old ≡ length others.now }
    ensures { (place : ℕ) → slice_index numbers.new place
        ≡ max (slice_index numbers.old place) (slice_index others.now place) }
{
    for place in 0..numbers.len() {
        numbers[place] = numbers[place].max(others[place]);
    }
}

/// Writes the clock of a delivered event, and counts no steps that a caller sees.
fn write_clock<C: Causal, L: Ledger>(delivered: &C, id: EventId, into: &mut [u32], blank: Blank)
    requires name { blank.name ≡ L.name }
    requires parts { blank.parts ≡ L.parts }
    requires some { 0 < blank.parts }
    requires length { length into.old ≡ (C.types delivered.now).traces }
    ensures { (journal : List Entry) → C.stands_for delivered.now journal
        → HasEvent (delivered_by journal) id
        → HasClocks (C.types delivered.now) (delivered_by journal) id into.new }
{
    let mut steps = Steps::<L>::new(blank);
    let _is_delivered = delivered.clock(id, into, &mut steps);
}
