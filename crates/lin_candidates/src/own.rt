//! Certificates that one operation alone decides: where one of these holds, it is found.
ghost use Rattle.std.specs.Prelude.{◌≡◌, IfNone, IfSome, MatchOption, Some};
ghost use Rattle.lin_events.specs.declared.items.Item.{Item as ItemOf};
ghost use Rattle.lin_events.specs.declared.calls.Val.{Val as ValOf};
ghost use Rattle.lin_order.specs.Tables.{IsNextTable};
ghost use Rattle.lin_certificates.specs.Certificates.{Certifies, Needed, TookOut};
ghost use Rattle.lin_certificates.specs.Words.{IsOfAnswers, Needs};
ghost use Rattle.lin_certificates.specs.declared.words.Answers.TheVariants as Answered;
ghost use Rattle.lin_certificates.specs.declared.certificate.Certificate.{Certificate as CertificateOf};
ghost use Rattle.lin_certificates.specs.declared.certificate.Certificate.TheVariants as Form;
ghost use Rattle.lin_candidates.specs.OwnCertificates.{IsOwn};

use lin_certificates::{Certificate, holds};
use lin_events::{Call, Event, Item, Reply, Val};
use lin_objects::Kind;
use lin_order::{call_at, ok_end};

/// The value that a register had to hold for the call to get this reply.
fn needed_for(call: &Call, reply: &Reply) -> Option<Val>
    ensures { MatchOption result ((v : ValOf) → Needs call.now reply.now v → ⊥) (λ value. (v : ValOf) → Needs call.now reply.now v → value ≡ v) }
{
    match call {
        Call::Read => match reply {
            Reply::Value(value) => Some(*value),
            _ => None,
        },
        Call::Cas(from, _) => Some(*from),
        _ => None,
    }
}

/// The item that the call took out with this reply.
fn taken_by(call: &Call, reply: &Reply) -> Option<Item>
    ensures { MatchOption result ((n : ItemOf) → IsOfAnswers (Answered.Takes n) call.now reply.now → ⊥) (λ item. (n : ItemOf) → IsOfAnswers (Answered.Takes n) call.now reply.now → item ≡ n) }
{
    match call {
        Call::Dequeue => match reply {
            Reply::Value(Val::Item(item)) => Some(*item),
            _ => None,
        },
        _ => None,
    }
}

/// The value that the operation at the place needs.
fn value_needed(events: &[Event], ends: &[Option<usize>], at: usize) -> Option<Val>
    requires { IsNextTable events.now ends.now }
    ensures { MatchOption result ((v : ValOf) → Needed events.now v at → ⊥) (λ value. (v : ValOf) → Needed events.now v at → value ≡ v) }
{
    let Some(call) = call_at(events, at) else {
        return None;
    };
    match ok_end(events, ends, at) {
        Some((_, reply)) => needed_for(call, reply),
        None => None,
    }
}

/// The item that the operation at the place took out.
fn item_taken(events: &[Event], ends: &[Option<usize>], at: usize) -> Option<Item>
    requires { IsNextTable events.now ends.now }
    ensures { MatchOption result ((n : ItemOf) → TookOut events.now n at → ⊥) (λ item. (n : ItemOf) → TookOut events.now n at → item ≡ n) }
{
    let Some(call) = call_at(events, at) else {
        return None;
    };
    match ok_end(events, ends, at) {
        Some((_, reply)) => taken_by(call, reply),
        None => None,
    }
}

/// The certificate, if there is one and it holds.
pub(crate) fn certificate_that_holds(
    events: &[Event],
    ends: &[Option<usize>],
    kind: Kind,
    candidate: Option<Certificate>,
) -> Option<Certificate>
    requires { IsNextTable events.now ends.now }
    ensures sound { IfSome result (λ found. Certifies events.now kind found) }
    ensures all { IfNone result (IfSome candidate (λ certificate. Certifies events.now kind certificate → ⊥)) }
{
    match candidate {
        Some(certificate) if holds(events, ends, kind, &certificate) => Some(certificate),
        _ => None,
    }
}

/// The certificate that the operation needs what nothing leaves, which has to be an item.
fn unwritten_certificate(at: usize, value: Val) -> Option<Certificate>
    ensures { (item : ItemOf) → value ≡ ValOf.Item item → result ≡ Some (Form.Unwritten at item) }
{
    match value {
        Val::Nil => None,
        Val::Item(item) => Some(Certificate::Unwritten {
            operation: at,
            item,
        }),
    }
}

/// The certificate that the operation needs what nothing leaves, or what was overwritten.
fn of_needed(events: &[Event], ends: &[Option<usize>], kind: Kind, at: usize) -> Option<Certificate>
    requires { IsNextTable events.now ends.now }
    ensures sound { IfSome result (λ found. Certifies events.now kind found) }
    ensures unwritten { IfNone result ((item : ItemOf) → Certifies events.now kind (Form.Unwritten at item) → ⊥) }
    ensures overwritten { IfNone result ((v : ValOf) → Certifies events.now kind (Form.Overwritten at v) → ⊥) }
{
    let value = value_needed(events, ends, at)?;
    let found = certificate_that_holds(events, ends, kind, unwritten_certificate(at, value));
    if found.is_some() {
        return found;
    }
    let overwritten = Certificate::Overwritten {
        operation: at,
        value,
    };
    certificate_that_holds(events, ends, kind, Some(overwritten))
}

/// The certificate that the item that the operation took was taken out too often.
fn of_taken(events: &[Event], ends: &[Option<usize>], kind: Kind, at: usize) -> Option<Certificate>
    requires { IsNextTable events.now ends.now }
    ensures sound { IfSome result (λ found. Certifies events.now kind found) }
    ensures all { IfNone result ((n : ItemOf) → TookOut events.now n at → Certifies events.now kind (Form.Taken n) → ⊥) }
{
    let item = item_taken(events, ends, at)?;
    certificate_that_holds(events, ends, kind, Some(Certificate::Taken { item }))
}

/// The certificate that the operation found nothing where more was left, or that the calls of a lock are too many.
fn of_counts(events: &[Event], ends: &[Option<usize>], kind: Kind, at: usize) -> Option<Certificate>
    requires { IsNextTable events.now ends.now }
    ensures sound { IfSome result (λ found. Certifies events.now kind found) }
    ensures remaining { IfNone result (Certifies events.now kind (Form.Remaining at) → ⊥) }
    ensures counted { IfNone result (Certifies events.now kind Form.Counted → ⊥) }
{
    let found = certificate_that_holds(
        events,
        ends,
        kind,
        Some(Certificate::Remaining { dequeue: at }),
    );
    if found.is_some() {
        return found;
    }
    certificate_that_holds(events, ends, kind, Some(Certificate::Counted))
}

/// A certificate that the operation at the place decides alone, wherever there is one.
pub(crate) fn own_certificate(
    events: &[Event],
    ends: &[Option<usize>],
    kind: Kind,
    at: usize,
) -> Option<Certificate>
    requires { IsNextTable events.now ends.now }
    ensures sound { IfSome result (λ found. Certifies events.now kind found) }
    ensures all { IfNone result ((c : CertificateOf) → IsOwn events.now at c → Certifies events.now kind c → ⊥) }
{
    let shape = certificate_that_holds(events, ends, kind, Some(Certificate::Shape { read: at }));
    if shape.is_some() {
        return shape;
    }
    let needed = of_needed(events, ends, kind, at);
    if needed.is_some() {
        return needed;
    }
    let taken = of_taken(events, ends, kind, at);
    if taken.is_some() {
        return taken;
    }
    of_counts(events, ends, kind, at)
}
