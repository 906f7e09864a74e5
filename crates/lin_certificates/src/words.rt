//! What operations do, in the words of which certificates are made.
ghost use Rattle.std.specs.Prelude.{◌↔◌, ◌⊎◌, ◌≡◌, Contains, IsTrue, false};
ghost use Rattle.lin_certificates.specs.Adding.{Adds};
ghost use Rattle.lin_certificates.specs.Numbers.{OfOne};
ghost use Rattle.lin_certificates.specs.Conflicts.{Leaves};
ghost use Rattle.lin_certificates.specs.QueueConflicts.{Takes};
ghost use Rattle.lin_certificates.specs.SetConflicts.{Has, Lacks};
ghost use Rattle.lin_certificates.specs.Words.{AddsSome, Gives, IsOfAnswers, IsOfCalls, Needs, Spends, Updates};

use lin_events::{Call, Item, Reply, Val};

/// A sort of calls.
#[derive(Clone, Copy, Debug, PartialEq, Eq)]
pub enum Calls {
    /// It leaves the value in a register.
    Leaves(Val),
    /// It leaves some value in a register.
    Updates,
    /// It takes a register from the value to another one.
    Spends(Val),
    /// It adds the item to a set, or puts it into a queue.
    Adds(Item),
    /// It adds some item, or puts it in.
    AddsSome,
    Dequeues,
    Acquires,
    Releases,
}

/// What a read gave.
#[derive(Clone, Copy, Debug, PartialEq, Eq)]
pub enum ReadSort {
    Value,
    Members,
}

/// A sort of calls with their replies.
#[derive(Clone, Copy, Debug, PartialEq, Eq)]
pub enum Answers {
    /// The call is of the sort.
    Called(Calls),
    /// A register had to hold the value.
    Needs(Val),
    /// A register had to hold the value, or holds it behind the call.
    Touches(Val),
    /// It took the item out of a queue.
    Takes(Item),
    /// It found a queue empty.
    FindsNothing,
    /// A set has the item behind it.
    Has(Item),
    /// It found a set without the item.
    Lacks(Item),
    /// It found a set with the first item and without the second.
    Tells(Item, Item),
    /// It read something of the sort.
    Gives(ReadSort),
}

/// Which operations. Those are named that stand apart.
#[derive(Clone, Copy, Debug, PartialEq, Eq)]
pub enum Which {
    /// Those that aren't failed.
    Counts(Calls),
    /// Those that aren't failed, but for this one.
    CountsBut(Calls, usize),
    /// Those that aren't failed, and were invoked before this place.
    CountsBelow(Calls, usize),
    /// Those that are ok.
    Returned(Answers),
    /// Those that are ok, but for this one.
    ReturnedBut(Answers, usize),
    /// Those that were known to be ok before this place.
    ReturnedBefore(Answers, usize),
    /// Those that were invoked at the first place or behind it, and were known to be ok before the second.
    ReturnedWithin(Answers, usize, usize),
    /// Those that aren't failed, were invoked before the second place, and weren't known to be ok before the first.
    CountsWithin(Calls, usize, usize),
    /// Those that are neither ok nor failed, but for this one.
    OpenBut(Calls, usize),
    /// Dequeues that may have taken something out ahead of this one: they aren't failed, aren't known to have found nothing, and this one isn't
    /// before them.
    TakesAhead(usize),
}

/// Whether the register has to hold the value for the call to get this reply.
fn needs(call: &Call, reply: &Reply, value: Val) -> bool
    ensures { IsTrue result ↔ Needs call.now reply.now value }
{
    match call {
        Call::Read => match reply {
            Reply::Value(found) => *found == value,
            _ => false,
        },
        Call::Cas(from, _) => *from == value,
        _ => false,
    }
}

/// Whether the call leaves the value in the register.
fn leaves(call: &Call, value: Val) -> bool
    ensures { IsTrue result ↔ Leaves call.now value }
{
    match call {
        Call::Write(left) => *left == value,
        Call::Cas(_, left) => *left == value,
        _ => false,
    }
}

/// Whether the call leaves some value in the register.
fn updates(call: &Call) -> bool
    ensures { IsTrue result ↔ Updates call.now }
{
    match call {
        Call::Write(_) => true,
        Call::Cas(_, _) => true,
        _ => false,
    }
}

/// Whether the call takes the register from the value to another one.
fn spends(call: &Call, value: Val) -> bool
    ensures { IsTrue result ↔ Spends call.now value }
{
    match call {
        Call::Cas(from, to) => *from == value && *to != value,
        _ => false,
    }
}

/// Whether the call adds the item to a set, or puts it into a queue.
fn adds(call: &Call, item: Item) -> bool
    ensures { IsTrue result ↔ Adds call.now item }
{
    match call {
        Call::Add(added) => *added == item,
        Call::Enqueue(added) => *added == item,
        _ => false,
    }
}

/// Whether the call adds some item to a set, or puts it into a queue.
fn adds_some(call: &Call) -> bool
    ensures { IsTrue result ↔ AddsSome call.now }
{
    match call {
        Call::Add(_) => true,
        Call::Enqueue(_) => true,
        _ => false,
    }
}

/// Whether the call with this reply takes the item out.
fn takes(call: &Call, reply: &Reply, item: Item) -> bool
    ensures { IsTrue result ↔ Takes call.now reply.now item }
{
    match call {
        Call::Dequeue => match reply {
            Reply::Value(Val::Item(found)) => *found == item,
            _ => false,
        },
        _ => false,
    }
}

/// Whether the item is one of these.
fn is_member(members: &[Item], item: Item) -> bool
    ensures found { IsTrue result → Contains members.now item }
    ensures none { result ≡ false → Contains members.now item → ⊥ }
{
    for at in 0..members.len() {
        if members[at] == item {
            return true;
        }
    }
    false
}

/// Whether the call puts one of the items in.
pub fn adds_one(call: &Call, items: &[Item]) -> bool
    ensures { IsTrue result ↔ OfOne items.now (Adds call.now) }
{
    match call {
        Call::Add(item) => is_member(items, *item),
        Call::Enqueue(item) => is_member(items, *item),
        _ => false,
    }
}

/// Whether a dequeue with this reply took one of the items out.
pub fn takes_one(reply: &Reply, items: &[Item]) -> bool
    ensures { IsTrue result ↔ OfOne items.now (Takes Call.Dequeue reply.now) }
{
    match reply {
        Reply::Value(Val::Item(item)) => is_member(items, *item),
        _ => false,
    }
}

/// Whether the set has the item behind the call with this reply.
fn has(call: &Call, reply: &Reply, item: Item) -> bool
    ensures { IsTrue result ↔ Has call.now reply.now item }
{
    match call {
        Call::Add(added) => *added == item,
        Call::Read => match reply {
            Reply::Members(members) => is_member(members.as_slice(), item),
            _ => false,
        },
        _ => false,
    }
}

/// Whether the call with this reply found the set without the item.
fn lacks(call: &Call, reply: &Reply, item: Item) -> bool
    ensures { IsTrue result ↔ Lacks call.now reply.now item }
{
    match call {
        Call::Read => match reply {
            Reply::Members(members) => !is_member(members.as_slice(), item),
            _ => false,
        },
        _ => false,
    }
}

/// Whether the call is of the sort.
pub fn is_of_calls(call: &Call, calls: &Calls) -> bool
    ensures { IsTrue result ↔ IsOfCalls calls.now call.now }
{
    match calls {
        Calls::Leaves(value) => leaves(call, *value),
        Calls::Updates => updates(call),
        Calls::Spends(value) => spends(call, *value),
        Calls::Adds(item) => adds(call, *item),
        Calls::AddsSome => adds_some(call),
        Calls::Dequeues => matches!(call, Call::Dequeue),
        Calls::Acquires => matches!(call, Call::Acquire),
        Calls::Releases => matches!(call, Call::Release),
    }
}

/// Whether the call with this reply is a dequeue that found nothing.
fn finds_nothing(call: &Call, reply: &Reply) -> bool
    ensures { IsTrue result ↔ ((call.now ≡ Call.Dequeue) × (reply.now ≡ Reply.Value Val.Nil)) }
{
    match call {
        Call::Dequeue => match reply {
            Reply::Value(Val::Nil) => true,
            _ => false,
        },
        _ => false,
    }
}

/// Whether the call reads, and the reply is of the sort.
fn gives(call: &Call, reply: &Reply, sort: ReadSort) -> bool
    ensures { IsTrue result ↔ Gives sort call.now reply.now }
{
    match (call, sort, reply) {
        (Call::Read, ReadSort::Value, Reply::Value(_)) => true,
        (Call::Read, ReadSort::Members, Reply::Members(_)) => true,
        _ => false,
    }
}

/// Whether the register has to hold the value for the call to get this reply, or holds it behind that.
fn touches(call: &Call, reply: &Reply, value: Val) -> bool
    ensures { IsTrue result ↔ (Needs call.now reply.now value ⊎ Leaves call.now value) }
{
    needs(call, reply, value) || leaves(call, value)
}

/// Whether the call with this reply found the set with the one item and without the other.
fn tells(call: &Call, reply: &Reply, item: Item, other: Item) -> bool
    ensures { IsTrue result ↔ (Has call.now reply.now item × Lacks call.now reply.now other) }
{
    has(call, reply, item) && lacks(call, reply, other)
}

/// Whether the call with this reply is of the sort.
pub fn is_of_answers(call: &Call, reply: &Reply, answers: &Answers) -> bool
    ensures { IsTrue result ↔ IsOfAnswers answers.now call.now reply.now }
{
    match answers {
        Answers::Called(calls) => is_of_calls(call, calls),
        Answers::Needs(value) => needs(call, reply, *value),
        Answers::Touches(value) => touches(call, reply, *value),
        Answers::Takes(item) => takes(call, reply, *item),
        Answers::FindsNothing => finds_nothing(call, reply),
        Answers::Has(item) => has(call, reply, *item),
        Answers::Lacks(item) => lacks(call, reply, *item),
        Answers::Tells(item, other) => tells(call, reply, *item, *other),
        Answers::Gives(sort) => gives(call, reply, *sort),
    }
}
