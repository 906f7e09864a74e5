//! The reply to `refute`: a refutation is made, and told only once it is checked.
ghost use Rattle.std.specs.Prelude.{◌≡◌, ◌≤◌, ◌-◌, ◌++◌, ℕ, Bool, List, IfOk, MatchOption, codes, decimal, length, take};
ghost use Rattle.lin_events.specs.WellFormed.{IsWellFormed};
ghost use Rattle.lin_objects.specs.Kinds.{functions_of};
ghost use Rattle.lin_order.specs.Linearizable.{IsLinearizableFor};
ghost use Rattle.lin_order.specs.Parts.{part};
ghost use Rattle.lin_order.specs.Refutations.{sets_of};
ghost use Rattle.lin_answers.specs.Answers.{kinds_in};
ghost use Rattle.lin_session.specs.Refuting.{Refutes};
ghost use Rattle.lin_report.specs.Runs.{IsCommandReply, IsRefuteReply};

use crate::answers::verdict_of;
use crate::commands::Command;
use crate::replies::{WrittenReply, answered};
use lin_answers::answers_are_verdicts;
use lin_events::{Event, Item, OutOfMemory, beginnings_are_well_formed};
use lin_formats::{Status, put_number};
use lin_order::{
    Refutation, check_refutation, parts_grow, parts_keep_operations, parts_keep_orders,
    refutations_exclude_orders,
};
use lin_session::{RefuteFault, Refuted, Session};
use std::alloc::{AllocError, Global};

/// The object's events among the first so many.
fn events_of(
    alloc: Global,
    session: &Session,
    key: Item,
    count: usize,
) -> Result<Vec<Event>, OutOfMemory>
    requires { count ≤ length session.now.present.history }
    ensures { IfOk result (λ events. events.items ≡ part key (take count session.now.present.history)) }
{
    parts_grow();
    let mut events = Vec::new(alloc);
    for at in 0..count {
        let Some(event) = session.event(at) else {
            unreachable!()
        };
        if event.key == key {
            events.push(event.copy(alloc)?)?;
        }
    }
    Ok(events)
}

/// The line that names a prefix for which a refutation was checked.
fn refuted_line(alloc: Global, prefix: usize) -> Result<Vec<u8>, AllocError>
    ensures { IfOk result (λ line. line.items ≡ codes "refuted prefix " ++ decimal prefix ++ codes "\n") }
{
    let mut line = Vec::from_slice(alloc, b"refuted prefix ")?;
    put_number(&mut line, prefix as u64)?;
    line.push(b'\n')?;
    Ok(line)
}

/// The reply that names the prefix, where the sets show that it has no legal order for the object. That the prefix before it has
/// one is known.
fn checked(
    alloc: Global,
    session: &Session,
    key: Item,
    prefix: usize,
    refutation: &Refutation,
) -> Result<Option<WrittenReply>, OutOfMemory>
    requires well_formed { IsWellFormed (functions_of (kinds_in session.now.present)) session.now.present.history }
    requires within { prefix ≤ length session.now.present.history }
    requires before { IsLinearizableFor (kinds_in session.now.present) key (take (prefix - 1) session.now.present.history) }
    ensures { IfOk result (λ found. MatchOption found (Refutes session.now.present key prefix (sets_of refutation.now) → ⊥) (λ reply. IsRefuteReply session.now.present key reply.text.items reply.status)) }
{
    refutations_exclude_orders();
    beginnings_are_well_formed();
    parts_keep_operations();
    parts_keep_orders();
    let events = events_of(alloc, session, key, prefix)?;
    if !check_refutation(alloc, &events, session.kind_of(key), refutation)? {
        return Ok(None);
    }
    Ok(Some(WrittenReply {
        text: refuted_line(alloc, prefix)?,
        status: Some(Status::No),
    }))
}

/// A refutation of the object, or its answer where that isn't a no.
pub fn refute(alloc: Global, session: &mut Session, key: Item) -> Result<WrittenReply, OutOfMemory>
    ensures { IfOk result (λ reply. (names : List (List ℕ)) (keyed : Bool) → IsCommandReply names keyed (Command.Refute key) session.old.present session.new.present reply.text.items reply.status) }
{
    answers_are_verdicts();
    match session.refute(alloc, key) {
        Ok(Refuted::No { prefix, refutation }) => {
            let Some(reply) = checked(alloc, session, key, prefix, &refutation)? else {
                unreachable!()
            };
            Ok(reply)
        }
        Ok(Refuted::Not(answer)) => answered(alloc, verdict_of(&answer)),
        Err(RefuteFault::TooLarge) => {
            let text = Vec::from_slice(alloc, b"refused refute 2 TooLarge\n")?;
            Ok(WrittenReply::plain(text))
        }
        Err(RefuteFault::OutOfMemory) => Err(OutOfMemory),
        Err(RefuteFault::NotDead) => unreachable!(),
    }
}
