//! Certificates that may hold of operations: of each form the one that is wanted most. None is promised to hold.
use crate::balances::{is_spender_named, preceded_candidate, remaining_candidate, spent_candidate};
use crate::crossings::crossed_candidate;
use crate::endings::{Ending, Operation};
use crate::within::within_candidate;
use lin_certificates::Certificate;
use lin_events::{Call, Item, OutOfMemory, Val};
use lin_objects::Kind;
use std::alloc::Global;
use std::collections::HashMap;

/// So many operations that do the same are named by the lines of a certificate.
pub const NAMED: usize = 3;

/// A form of certificates.
#[derive(Clone, Copy)]
pub enum Form {
    Shape,
    Unwritten,
    Overwritten,
    Crossed,
    Spent,
    Taken,
    Passed,
    Inside,
    Preceded,
    Remaining,
    Unadded,
    Lost,
    Split,
    Late,
    Twice,
    Counted,
    Within,
}

/// The forms, in the order in which they are wanted.
pub const FORMS: [Form; 17] = [
    Form::Shape,
    Form::Unwritten,
    Form::Overwritten,
    Form::Crossed,
    Form::Spent,
    Form::Taken,
    Form::Passed,
    Form::Inside,
    Form::Preceded,
    Form::Remaining,
    Form::Unadded,
    Form::Lost,
    Form::Split,
    Form::Late,
    Form::Twice,
    Form::Counted,
    Form::Within,
];

/// A value that nothing else may leave, of an operation that needs it.
fn unwritten_candidate(target: &Operation) -> Option<Certificate> {
    match target.value_needed()? {
        Val::Nil => None,
        Val::Item(item) => Some(Certificate::Unwritten {
            operation: target.at,
            item,
        }),
    }
}

/// A value that may be overwritten, of an operation that needs it.
fn overwritten_candidate(target: &Operation) -> Option<Certificate> {
    let value = target.value_needed()?;
    Some(Certificate::Overwritten {
        operation: target.at,
        value,
    })
}

/// What may be a certificate of a register.
fn of_register(
    alloc: Global,
    form: Form,
    operations: &[Operation],
    target: &Operation,
) -> Result<Option<Certificate>, OutOfMemory> {
    match form {
        Form::Shape if target.members().is_some() => Ok(Some(Certificate::Shape {
            read: target.at,
        })),
        Form::Unwritten => Ok(unwritten_candidate(target)),
        Form::Overwritten => Ok(overwritten_candidate(target)),
        Form::Crossed => crossed_candidate(alloc, operations, target),
        Form::Spent => Ok(spent_candidate(operations, target)),
        _ => Ok(None),
    }
}

/// What is known of an item of a queue.
#[derive(Clone, Copy)]
struct Queued {
    /// How many operations that aren't failed put it in.
    puts: usize,
    /// The first dequeue that took it.
    take: Option<usize>,
}

impl Queued {
    fn new() -> Queued {
        Queued {
            puts: 0,
            take: None,
        }
    }
}

/// What is known of each item that operations put in or took out, but for what the dequeue took that is looked at.
fn items_known(
    alloc: Global,
    operations: &[Operation],
    target: usize,
) -> Result<HashMap<Item, Queued>, OutOfMemory> {
    let mut known: HashMap<Item, Queued> = HashMap::new(alloc);
    for operation in operations {
        if let Some(item) = operation.item_added()
            && operation.counts()
        {
            let mut about = known.get(&item).copied().unwrap_or(Queued::new());
            about.puts = about.puts.saturating_add(1);
            known.insert(item, about)?;
        }
        if let Some(item) = operation.item_taken()
            && operation.at != target
        {
            let mut about = known.get(&item).copied().unwrap_or(Queued::new());
            about.take = Some(about.take.unwrap_or(operation.at));
            known.insert(item, about)?;
        }
    }
    Ok(known)
}

/// Whether a dequeue other than this one was invoked before it returned, and neither returned nor failed.
fn is_one_open(operations: &[Operation], target: usize, end: usize) -> bool {
    for operation in operations {
        if let (Call::Dequeue, Ending::Open) = (operation.call, operation.ending)
            && operation.at != target
            && operation.at < end
        {
            return true;
        }
    }
    false
}

/// Whether the item may stay until the dequeue that returned at the place.
fn may_stay(known: &HashMap<Item, Queued>, item: Item, end: usize, is_open: bool) -> bool {
    let Some(about) = known.get(&item) else {
        return false;
    };
    match about.take {
        Some(take) => end < take && (!is_open || about.puts == 1),
        None => !is_open,
    }
}

/// The last enqueue that returned before the place, of an item that may stay until the dequeue, which returned at `end`.
fn item_that_stays(
    alloc: Global,
    operations: &[Operation],
    target: &Operation,
    place: usize,
) -> Result<Option<(usize, Item)>, OutOfMemory> {
    let Some((end, _)) = target.ok_end() else {
        return Ok(None);
    };
    let known = items_known(alloc, operations, target.at)?;
    let is_open = is_one_open(operations, target.at, end);
    for operation in operations.iter().rev() {
        if let Some(item) = operation.item_added()
            && let Some((put, _)) = operation.ok_end()
            && put < place
            && target.item_taken() != Some(item)
            && may_stay(&known, item, end, is_open)
        {
            return Ok(Some((operation.at, item)));
        }
    }
    Ok(None)
}

/// The first enqueue of the item that isn't failed.
fn first_put(operations: &[Operation], item: Item) -> Option<usize> {
    for operation in operations {
        if operation.item_added() == Some(item) && operation.counts() {
            return Some(operation.at);
        }
    }
    None
}

/// The item that the dequeue took may have passed another one, which was put in last.
fn passed_candidate(
    alloc: Global,
    operations: &[Operation],
    target: &Operation,
) -> Result<Option<Certificate>, OutOfMemory> {
    let Some(other) = target.item_taken() else {
        return Ok(None);
    };
    let Some(later) = first_put(operations, other) else {
        return Ok(None);
    };
    let Some((enqueue, item)) = item_that_stays(alloc, operations, target, later)? else {
        return Ok(None);
    };
    Ok(Some(Certificate::Passed {
        enqueue,
        later,
        dequeue: target.at,
        item,
        other,
    }))
}

/// The one enqueue of the item that isn't failed, and where it was known to be ok; nothing where there are more.
fn only_put(operations: &[Operation], item: Item) -> Option<(usize, usize)> {
    let mut puts: usize = 0;
    let mut found = None;
    for operation in operations {
        if operation.item_added() == Some(item) && operation.counts() {
            puts = puts.saturating_add(1);
            if let Some((end, _)) = operation.ok_end() {
                found = Some((operation.at, end));
            }
        }
    }
    if puts != 1 {
        return None;
    }
    found
}

/// Of the items that dequeues took before the place the last one that was put in only behind `end`: its first enqueue, the dequeue, and the item.
fn taken_ahead(
    first: &HashMap<Item, usize>,
    operations: &[Operation],
    place: usize,
    end: usize,
) -> Option<(usize, usize, Item)> {
    for operation in operations.iter().rev() {
        if let Some((returned, _)) = operation.ok_end()
            && returned < place
            && let Some(item) = operation.item_taken()
            && let Some(put) = first.get(&item).copied()
            && end < put
        {
            return Some((put, operation.at, item));
        }
    }
    None
}

/// The item that the dequeue took may have been passed by another one.
fn overtaken_candidate(
    alloc: Global,
    operations: &[Operation],
    target: &Operation,
) -> Result<Option<Certificate>, OutOfMemory> {
    let Some(item) = target.item_taken() else {
        return Ok(None);
    };
    let Some((enqueue, end)) = only_put(operations, item) else {
        return Ok(None);
    };
    let first = first_adds(alloc, operations)?;
    match taken_ahead(&first, operations, target.at, end) {
        Some((later, dequeue, other)) => Ok(Some(Certificate::Passed {
            enqueue,
            later,
            dequeue,
            item,
            other,
        })),
        None => Ok(None),
    }
}

/// The dequeue may have found nothing though an item was inside.
fn inside_candidate(
    alloc: Global,
    operations: &[Operation],
    target: &Operation,
) -> Result<Option<Certificate>, OutOfMemory> {
    match item_that_stays(alloc, operations, target, target.at)? {
        Some((enqueue, item)) => Ok(Some(Certificate::Inside {
            enqueue,
            dequeue: target.at,
            item,
        })),
        None => Ok(None),
    }
}

/// An item that may have been taken out too often.
fn taken_candidate(target: &Operation) -> Option<Certificate> {
    let item = target.item_taken().or(target.item_added())?;
    Some(Certificate::Taken { item })
}

/// What may be a certificate of a queue that promises no order.
fn of_bag(
    alloc: Global,
    form: Form,
    operations: &[Operation],
    target: &Operation,
) -> Result<Option<Certificate>, OutOfMemory> {
    match form {
        Form::Taken => Ok(taken_candidate(target)),
        Form::Inside if target.found_nothing() => inside_candidate(alloc, operations, target),
        Form::Remaining if target.found_nothing() => Ok(remaining_candidate(operations, target)),
        _ => Ok(None),
    }
}

/// What may be a certificate of a queue: first in, first out.
fn of_fifo(
    alloc: Global,
    form: Form,
    operations: &[Operation],
    target: &Operation,
) -> Result<Option<Certificate>, OutOfMemory> {
    match form {
        Form::Passed => passed_candidate(alloc, operations, target),
        Form::Preceded => Ok(preceded_candidate(operations, target)),
        _ => of_bag(alloc, form, operations, target),
    }
}

/// The first add of each item, or its first enqueue, that isn't failed.
fn first_adds(
    alloc: Global,
    operations: &[Operation],
) -> Result<HashMap<Item, usize>, OutOfMemory> {
    let mut first: HashMap<Item, usize> = HashMap::new(alloc);
    for operation in operations {
        if let Some(item) = operation.item_added()
            && operation.counts()
            && !first.contains_key(&item)
        {
            first.insert(item, operation.at)?;
        }
    }
    Ok(first)
}

/// The first item of the one list that the other, which rises, lacks.
fn first_missing(members: &[Item], others: &[Item]) -> Option<Item> {
    for member in members {
        if others.binary_search(member).is_err() {
            return Some(*member);
        }
    }
    None
}

/// The first member that nothing adds.
fn unadded_of(first: &HashMap<Item, usize>, members: &[Item]) -> Option<Item> {
    for member in members {
        if !first.contains_key(member) {
            return Some(*member);
        }
    }
    None
}

/// A member that nothing may add, of a read.
fn unadded_candidate(
    alloc: Global,
    operations: &[Operation],
    target: &Operation,
) -> Result<Option<Certificate>, OutOfMemory> {
    let Some(members) = target.members() else {
        return Ok(None);
    };
    let first = first_adds(alloc, operations)?;
    match unadded_of(&first, members) {
        Some(item) => Ok(Some(Certificate::Unadded {
            read: target.at,
            item,
        })),
        None => Ok(None),
    }
}

/// An item that the set has behind the operation, and that the read lacks.
fn item_lacked(operation: &Operation, members: &[Item]) -> Option<Item> {
    match operation.members() {
        Some(others) => first_missing(others, members),
        None => {
            let item = operation.item_added()?;
            if members.binary_search(&item).is_ok() {
                return None;
            }
            Some(item)
        }
    }
}

/// The last invoked of the operations that returned before the place and behind which the set has what the read lacks: where it was known to be
/// ok, its place, and the item.
fn last_overlooked(
    operations: &[Operation],
    members: &[Item],
    place: usize,
) -> Option<(usize, usize, Item)> {
    for operation in operations.iter().rev() {
        if let Some((end, _)) = operation.ok_end()
            && end < place
            && let Some(item) = item_lacked(operation, members)
        {
            return Some((end, operation.at, item));
        }
    }
    None
}

/// An item that a read lacks though the set had it before.
fn lost_candidate(operations: &[Operation], target: &Operation) -> Option<Certificate> {
    let (_, earlier, item) = last_overlooked(operations, target.members()?, target.at)?;
    Some(Certificate::Lost {
        earlier,
        read: target.at,
        item,
    })
}

/// Two reads of which each lacks what the other has, in this order.
fn split_of_both(first: &Operation, second: &Operation) -> Option<Certificate> {
    let members = first.members()?;
    let others = second.members()?;
    Some(Certificate::Split {
        first: first.at,
        second: second.at,
        item: first_missing(members, others)?,
        other: first_missing(others, members)?,
    })
}

/// Two reads of which each lacks what the other has, the last invoked first: this read, and of the others the last invoked one.
fn split_candidate(operations: &[Operation], target: &Operation) -> Option<Certificate> {
    for operation in operations.iter().rev() {
        let certificate = if target.at < operation.at {
            split_of_both(operation, target)
        } else {
            split_of_both(target, operation)
        };
        if certificate.is_some() {
            return certificate;
        }
    }
    None
}

/// Where the member was added first that was added last.
fn place_of_last_added(first: &HashMap<Item, usize>, members: &[Item]) -> usize {
    let mut newest: usize = 0;
    for member in members {
        if let Some(add) = first.get(member).copied()
            && newest < add
        {
            newest = add;
        }
    }
    newest
}

/// The first member that was added only behind the place, and its first add.
fn added_behind(
    first: &HashMap<Item, usize>,
    members: &[Item],
    place: usize,
) -> Option<(Item, usize)> {
    for member in members {
        if let Some(add) = first.get(member).copied()
            && place < add
        {
            return Some((*member, add));
        }
    }
    None
}

/// An item that a read lacks though the set had it before another one was added that the read has.
fn late_candidate(
    alloc: Global,
    operations: &[Operation],
    target: &Operation,
) -> Result<Option<Certificate>, OutOfMemory> {
    let Some(members) = target.members() else {
        return Ok(None);
    };
    let first = first_adds(alloc, operations)?;
    let Some((end, earlier, item)) = last_overlooked(
        operations,
        members,
        place_of_last_added(&first, members),
    ) else {
        return Ok(None);
    };
    match added_behind(&first, members, end) {
        Some((other, add)) => Ok(Some(Certificate::Late {
            earlier,
            add,
            read: target.at,
            item,
            other,
        })),
        None => Ok(None),
    }
}

/// What may be a certificate of a set.
fn of_set(
    alloc: Global,
    form: Form,
    operations: &[Operation],
    target: &Operation,
) -> Result<Option<Certificate>, OutOfMemory> {
    match form {
        Form::Shape if target.gives_value() => Ok(Some(Certificate::Shape { read: target.at })),
        Form::Unadded => unadded_candidate(alloc, operations, target),
        Form::Lost => Ok(lost_candidate(operations, target)),
        Form::Split => Ok(split_candidate(operations, target)),
        Form::Late => late_candidate(alloc, operations, target),
        _ => Ok(None),
    }
}

/// The last invoked call of the same function that returned before the operation.
fn twice_candidate(operations: &[Operation], target: &Operation) -> Option<Certificate> {
    for operation in operations.iter().rev() {
        if let Some((end, _)) = operation.ok_end()
            && operation.call == target.call
            && end < target.at
        {
            return Some(Certificate::Twice {
                first: operation.at,
                second: target.at,
            });
        }
    }
    None
}

/// What may be a certificate of a lock.
fn of_mutex(
    alloc: Global,
    form: Form,
    operations: &[Operation],
    target: &Operation,
) -> Result<Option<Certificate>, OutOfMemory> {
    match form {
        Form::Twice => Ok(twice_candidate(operations, target)),
        Form::Counted => Ok(Some(Certificate::Counted)),
        Form::Within => within_candidate(alloc, operations, target),
        _ => Ok(None),
    }
}

/// Of the certificates of the form that may hold of an object of the kind, and in which the operation has the chief part, the one that is wanted.
pub fn candidate(
    alloc: Global,
    kind: Kind,
    form: Form,
    operations: &[Operation],
    target: &Operation,
) -> Result<Option<Certificate>, OutOfMemory> {
    match kind {
        Kind::Register | Kind::CasRegister => of_register(alloc, form, operations, target),
        Kind::Fifo => of_fifo(alloc, form, operations, target),
        Kind::Bag => of_bag(alloc, form, operations, target),
        Kind::Set => of_set(alloc, form, operations, target),
        Kind::Mutex => of_mutex(alloc, form, operations, target),
    }
}

/// Whether the operation is one of the first that did what it did, or that failed to.
fn is_named(operations: &[Operation], target: &Operation) -> bool {
    let mut alike: usize = 0;
    for operation in operations {
        if operation.at < target.at
            && operation.call == target.call
            && operation.item_taken() == target.item_taken()
            && operation.counts() == target.counts()
            && (operation.ok_end().is_some() == target.ok_end().is_some()
                || target.item_added().is_some())
        {
            alike = alike.saturating_add(1);
        }
    }
    alike < NAMED
}

/// What may be a certificate of an item that passed another one, and names the dequeue: this took the one, or the other.
fn passed_naming(
    alloc: Global,
    operations: &[Operation],
    target: &Operation,
) -> Result<Option<Certificate>, OutOfMemory> {
    let found = passed_candidate(alloc, operations, target)?;
    if found.is_some() {
        return Ok(found);
    }
    overtaken_candidate(alloc, operations, target)
}

/// Of the certificates of the form that may hold of an object of the kind, and whose lines name the operation, which is the failing one, the one
/// that is wanted.
pub fn candidate_naming(
    alloc: Global,
    kind: Kind,
    form: Form,
    operations: &[Operation],
    failing: &Operation,
) -> Result<Option<Certificate>, OutOfMemory> {
    match (kind, form) {
        (Kind::Fifo, Form::Passed) => passed_naming(alloc, operations, failing),
        (_, Form::Spent) if !is_spender_named(operations, failing) => Ok(None),
        (_, Form::Taken | Form::Counted) if !is_named(operations, failing) => Ok(None),
        _ => candidate(alloc, kind, form, operations, failing),
    }
}
