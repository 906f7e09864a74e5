//! The lines that tell a certificate.
ghost use Rattle.std.specs.Prelude.{IfOk, OnOk};
ghost use Rattle.lin_order.specs.Tables.{IsNextTable};
ghost use Rattle.lin_certificate_lines.specs.Reasons.{ArePut, IsCertified, IsReason, IsTold};

use crate::counts::put_count_reason;
use crate::locks::{put_counted, put_twice};
use crate::naming::{in_order, name_pair};
use crate::told::ObjectEvents;
use crate::within::put_within;
use lin_certificates::Certificate;
use std::alloc::{AllocError, Global};

/// Puts the lines of the certificate last, and the operations that they name.
fn put_any_reason(
    text: &mut Vec<u8>,
    named: &mut Vec<usize>,
    told: &ObjectEvents,
    certificate: &Certificate,
    alloc: Global,
) -> Result<(), AllocError>
    requires table { IsNextTable told.now.events.now told.now.ends.now }
    requires holds { IsCertified told.now.events.now certificate.now }
    ensures { OnOk result (ArePut (IsReason told.now certificate.now) text.old.items text.new.items named.old.items named.new.items) }
{
    match certificate {
        Certificate::Twice { first, second } => {
            put_twice(text, told, *first, *second)?;
            name_pair(named, (*first, *second))?;
            Ok(())
        }
        Certificate::Counted => put_counted(text, named, told, alloc),
        Certificate::Within { calls, from, to } => {
            put_within(text, named, told, *calls, (*from, *to), alloc)
        }
        _ => put_count_reason(text, named, told, certificate, alloc),
    }
}

/// Puts the lines of a certificate last that holds of the events, each with its end. Gives the operations that the lines name, as places of
/// their invocations among the object's own events, rising, each once.
pub fn put_reason(
    text: &mut Vec<u8>,
    told: &ObjectEvents,
    certificate: &Certificate,
    alloc: Global,
) -> Result<Vec<usize>, AllocError>
    requires table { IsNextTable told.now.events.now told.now.ends.now }
    requires holds { IsCertified told.now.events.now certificate.now }
    ensures { IfOk result (λ named. IsTold told.now certificate.now text.old.items text.new.items named.items) }
{
    let mut named = Vec::new(alloc);
    put_any_reason(text, &mut named, told, certificate, alloc)?;
    Ok(in_order(named))
}
