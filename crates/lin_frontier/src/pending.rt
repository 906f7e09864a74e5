//! The operations that are open.
ghost use Rattle.std.specs.Prelude.{◌≡◌, ◌⊎◌, ◌&&◌, ◌+◌, ◌≤◌, [], true, nat_eq, All, Bool, Contains, IsTrue, List, IfNone, IfSome, length, OnOk, OnErr, filter, map, not, take, ◌==◌, ◌++◌};
ghost use Rattle.lin_events.specs.declared.items.Item.{Item as ItemOf};
ghost use Rattle.lin_events.specs.declared.calls.Name.{Name as NameOf};
ghost use Rattle.lin_events.specs.declared.events.Event.{Event as EventOf};
ghost use Rattle.lin_order.specs.ConfigurationLaws.{with_event};
ghost use Rattle.lin_frontier.specs.Frontiers.{IsNextEvent, IsPending};
ghost use Rattle.lin_frontier.specs.Masks.{crashed_bits as crashed_bits_of, is_crashed as is_crashed_in, bits_beside as bits_beside_of};
ghost use Rattle.lin_frontier.specs.Placing.{marked};

use crate::pairs::{Pairs, bit_of};
use lin_events::{
    Body, Call, Event, OutOfMemory, beginnings_are_well_formed, well_formed_is_alternating,
};
use std::marker::Model;

/// An operation that is open: it has neither returned nor failed.
#[derive(Clone, Copy)]
pub struct Open {
    pub process: u64,
    /// The position of its invocation among the object's events.
    pub at: usize,
    pub call: Call,
    /// Whether it had an `:info`, so that it stays open for good.
    pub crashed: bool,
}

/// Before any event no operation is open.
pub fn nothing_is_open_at_first()
    ensures { IsPending [] [] }
{}

/// The operation of the process, if it has one that is open.
pub fn open_of(pending: &[Open], process: u64) -> Option<&Open>
    ensures some { IfSome result (λ o. Contains pending.now o.now × (o.now.process ≡ process)) }
    ensures none { IfNone result (All (λ o. o.process ≡ process → ⊥) pending.now) }
{
    for operation in pending {
        if operation.process == process {
            return Some(operation);
        }
    }
    None
}

/// Takes the operation of the process out.
fn close(pending: &mut Vec<Open>, process: u64)
    ensures { pending.new.items ≡ filter (λ o. not (o.process == process)) pending.old.items }
{
    pending.retain(|open| open.process != process);
}

/// Marks the operation of the process as crashed.
fn mark_crashed(pending: &mut Vec<Open>, process: u64)
    ensures { pending.new.items ≡ map (marked process) pending.old.items }
{
    for open in pending.iter_mut() {
        open.crashed |= open.process == process;
    }
}

/// Puts operations equal to the others behind what the list has.
pub fn append_operations(operations: &mut Vec<Open>, others: &[Open]) -> Result<(), OutOfMemory>
    ensures all { OnOk result (operations.new.items ≡ operations.old.items ++ others.now) }
    ensures front { take (length operations.old.items) operations.new.items ≡ operations.old.items }
    ensures more { length operations.old.items ≤ length operations.new.items }
{
    match operations.extend_from_slice(others) {
        Ok(()) => Ok(()),
        Err(_) => Err(OutOfMemory),
    }
}

/// Takes one more event in: its operation is open from then on, or no longer, or has crashed.
pub fn take_in(pending: &mut Vec<Open>, at: usize, event: &Event) -> Result<(), OutOfMemory>
    ensures ok { OnOk result ((functions : ItemOf → NameOf → Bool) (h : List EventOf) → IsNextEvent functions h pending.old.items at event.now → IsPending (with_event h event.now) pending.new.items) }
    ensures err { OnErr result (pending.new.items ≡ pending.old.items) }
    ensures len { length pending.new.items ≤ length pending.old.items + 1 }
{
    well_formed_is_alternating();
    beginnings_are_well_formed();
    match &event.body {
        Body::Invoke(call) => {
            let new = Open {
                process: event.process,
                at,
                call: *call,
                crashed: false,
            };
            match pending.push(new) {
                Ok(()) => Ok(()),
                Err(_) => Err(OutOfMemory),
            }
        }
        Body::Ok(_, _) | Body::Fail(_) => {
            close(pending, event.process);
            Ok(())
        }
        Body::Info(_) => {
            mark_crashed(pending, event.process);
            Ok(())
        }
    }
}

/// Whether the operation is of the process, and has crashed.
fn has_crashed(operation: &Open, process: u64) -> bool
    ensures { result ≡ (nat_eq operation.now.process process && operation.now.crashed) }
{
    operation.process == process && operation.crashed
}

/// Whether an operation of the process has crashed.
fn is_crashed(operations: &[Open], process: u64) -> bool
    ensures { result ≡ is_crashed_in operations.now process }
{
    for operation in operations {
        if has_crashed(operation, process) {
            return true;
        }
    }
    false
}

/// The bits of the processes of those that crashed.
fn crashed_bits(operations: &[Open]) -> u64
    ensures { result ≡ crashed_bits_of operations.now }
{
    let mut bits = 0;
    for operation in operations {
        if operation.crashed {
            bits |= bit_of(operation.process);
        }
    }
    bits
}

/// Operations that are open, with bits that tell of most processes at once that they haven't crashed.
#[derive(Drop)]
pub struct Pending<'a> {
    operations: &'a [Open],
    crashed: u64,
}

impl<'a> Model for Pending<'a> {
    ghost use Rattle.std.specs.Prelude.{◌≡◌, List};
    ghost use Rattle.lin_frontier.specs.declared.pending.Open.{Open as OpenOf};
    ghost use Rattle.lin_frontier.specs.Masks.{crashed_bits};

    ghost Value = { List OpenOf };

    ghost view = { λ p. p.operations.now };

    ghost invariant = { λ p. p.crashed ≡ crashed_bits p.operations.now };
}

impl<'a> Pending<'a> {
    /// These operations.
    pub fn of(operations: &'a [Open]) -> Self
        ensures { result ≡ operations.now }
    {
        Pending {
            operations,
            crashed: crashed_bits(operations),
        }
    }

    pub fn as_slice(&self) -> &'a [Open]
        ensures { result.now ≡ self.now }
    {
        self.operations
    }

    /// Whether an operation of the process has crashed.
    pub fn is_crashed(&self, process: u64) -> bool
        ensures { result ≡ is_crashed_in self.now process }
    {
        self.crashed | bit_of(process) == self.crashed && is_crashed(self.operations, process)
    }

    /// The bits of the processes of the pairs, and of those that crashed. They are the same where the one pairs are part of
    /// the others, which have no more but for crashed operations.
    pub fn bits_beside(&self, pairs: &Pairs) -> u64
        ensures { result ≡ bits_beside_of self.now pairs.now }
    {
        pairs.mask() | self.crashed
    }

    /// Whether the pairs may be part of the others, which have no more but for crashed operations, as far as the bits tell.
    pub fn may_cover(&self, pairs: &Pairs, others: &Pairs) -> bool
        ensures { All (λ x. Contains others.now x) pairs.now → All (λ x. Contains pairs.now x ⊎ (is_crashed_in self.now x.0 ≡ true)) others.now → IsTrue result }
    {
        let mask = pairs.mask();
        let other = others.mask();
        mask | other == other && other | self.crashed == mask | self.crashed
    }
}
