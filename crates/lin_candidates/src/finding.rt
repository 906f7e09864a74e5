//! A search for a certificate. Whatever it finds is tested; it finds one wherever the failing operation alone decides it, and what the searches for a
//! failure find that go through the events of a register or a bag one after another.
ghost use Rattle.std.specs.Prelude.{IfNone, IfOk, IfSome};
ghost use Rattle.lin_order.specs.Tables.{IsNextTable};
ghost use Rattle.lin_certificates.specs.Certificates.{Certifies};
ghost use Rattle.lin_certificates.specs.declared.certificate.Certificate.{Certificate as CertificateOf};
ghost use Rattle.lin_candidates.specs.OwnCertificates.{IsOwn};

use crate::candidates::{FORMS, Form, candidate, candidate_naming};
use crate::endings::{Operation, operations_of};
use crate::own::{certificate_that_holds, own_certificate};
use lin_certificates::{Certificate, bag_failure};
use lin_events::{Event, OutOfMemory};
use lin_objects::Kind;
use lin_order::ends_of;
use lin_registers::register_failure;
use std::alloc::Global;

/// How many operations are looked at beside the failing one, the last invoked first.
const LIMIT: usize = 64;

/// How many of them where operations have to be counted for each.
const FEW: usize = 16;

/// How many operations are looked at for the form.
fn most_tried(form: Form) -> usize {
    match form {
        Form::Spent | Form::Preceded | Form::Remaining => FEW,
        // only what the failing operation does makes a stretch hold that didn't
        Form::Within => 0,
        _ => LIMIT,
    }
}

/// A certificate whose lines name the failing operation, of the first form that has one.
fn certificate_naming(
    alloc: Global,
    events: &[Event],
    ends: &[Option<usize>],
    kind: Kind,
    operations: &[Operation],
    failing: &Operation,
) -> Result<Option<Certificate>, OutOfMemory>
    requires { IsNextTable events.now ends.now }
    ensures { IfOk result (λ found. IfSome found (λ certificate. Certifies events.now kind certificate)) }
{
    for form in FORMS.iter() {
        let some = candidate_naming(alloc, kind, *form, operations, failing)?;
        let found = certificate_that_holds(events, ends, kind, some);
        if found.is_some() {
            return Ok(found);
        }
    }
    Ok(None)
}

/// A certificate whose lines name the operation that was invoked at the place.
fn certificate_at(
    alloc: Global,
    events: &[Event],
    ends: &[Option<usize>],
    kind: Kind,
    operations: &[Operation],
    failing: usize,
) -> Result<Option<Certificate>, OutOfMemory>
    requires { IsNextTable events.now ends.now }
    ensures { IfOk result (λ found. IfSome found (λ certificate. Certifies events.now kind certificate)) }
{
    for operation in operations {
        if operation.at == failing {
            return certificate_naming(alloc, events, ends, kind, operations, operation);
        }
    }
    Ok(None)
}

/// A certificate of the form, in which one of the last operations has the chief part.
fn certificate_of(
    alloc: Global,
    events: &[Event],
    ends: &[Option<usize>],
    kind: Kind,
    operations: &[Operation],
    form: Form,
) -> Result<Option<Certificate>, OutOfMemory>
    requires { IsNextTable events.now ends.now }
    ensures { IfOk result (λ found. IfSome found (λ certificate. Certifies events.now kind certificate)) }
{
    let mut tried = 0;
    for operation in operations.iter().rev() {
        if most_tried(form) <= tried {
            break;
        }
        let some = candidate(alloc, kind, form, operations, operation)?;
        let found = certificate_that_holds(events, ends, kind, some);
        if found.is_some() {
            return Ok(found);
        }
        tried += 1;
    }
    Ok(None)
}

/// A certificate in which one of the last operations has the chief part, of the first form that has one.
fn certificate_of_last(
    alloc: Global,
    events: &[Event],
    ends: &[Option<usize>],
    kind: Kind,
    operations: &[Operation],
) -> Result<Option<Certificate>, OutOfMemory>
    requires { IsNextTable events.now ends.now }
    ensures { IfOk result (λ found. IfSome found (λ certificate. Certifies events.now kind certificate)) }
{
    for form in FORMS.iter() {
        let found = certificate_of(alloc, events, ends, kind, operations, *form)?;
        if found.is_some() {
            return Ok(found);
        }
    }
    Ok(None)
}

/// The certificate by which a search tells that a register or a bag has no legal order, if it finds one.
fn certificate_of_search(
    alloc: Global,
    events: &[Event],
    ends: &[Option<usize>],
    kind: Kind,
) -> Result<Option<Certificate>, OutOfMemory>
    requires { IsNextTable events.now ends.now }
    ensures { IfOk result (λ found. IfSome found (λ certificate. Certifies events.now kind certificate)) }
{
    let failure = match kind {
        Kind::Register | Kind::CasRegister => register_failure(alloc, events)?,
        Kind::Bag => bag_failure(alloc, events)?,
        Kind::Fifo | Kind::Set | Kind::Mutex => None,
    };
    Ok(certificate_that_holds(events, ends, kind, failure.map(|(_, found)| found)))
}

/// A certificate that holds of the events, which are those of one object of the kind, if the search finds one. `failing` is the place where the
/// failing operation was invoked, the one with whose end no order is legal any more. Of the certificates whose lines name it the first is wanted,
/// else the first of all: forms in their order, and of a form mostly the operations that were invoked last; last that by which a search told the failure.
/// Where the failing operation alone decides a certificate, one is found. `OutOfMemory` is answered only where memory was refused.
pub fn find_certificate(
    alloc: Global,
    events: &[Event],
    kind: Kind,
    failing: usize,
) -> Result<Option<Certificate>, OutOfMemory>
    ensures sound { IfOk result (λ found. IfSome found (λ certificate. Certifies events.now kind certificate)) }
    ensures own { IfOk result (λ found. IfNone found ((c : CertificateOf) → IsOwn events.now failing c → Certifies events.now kind c → ⊥)) }
{
    let ends = ends_of(alloc, events)?;
    let operations = operations_of(alloc, events, ends.as_slice())?;
    let found = certificate_at(
        alloc,
        events,
        ends.as_slice(),
        kind,
        operations.as_slice(),
        failing,
    )?;
    if found.is_some() {
        return Ok(found);
    }
    let last = certificate_of_last(alloc, events, ends.as_slice(), kind, operations.as_slice())?;
    if last.is_some() {
        return Ok(last);
    }
    let own = own_certificate(events, ends.as_slice(), kind, failing);
    if own.is_some() {
        return Ok(own);
    }
    certificate_of_search(alloc, events, ends.as_slice(), kind)
}
