//! Why the operations of an object have no legal order: certificates.
ghost use Rattle.std.specs.Prelude.{◌≡◌, ◌++◌, ℕ, List, IfOk, map};
ghost use Rattle.lin_certificates.specs.Certificates.{Certifies};
ghost use Rattle.lin_order.specs.Tables.{IsNextTable};
ghost use Rattle.lin_tables.specs.WindowTables.{position_in, told_of};
ghost use Rattle.lin_explain.specs.Whys.{IsWhy, IsWhyText, form_name as name_of};

use crate::parts::Why;
use lin_candidates::find_certificate;
use lin_certificate_lines::{ObjectEvents, put_reason};
use lin_certificates::Certificate;
use lin_events::OutOfMemory;
use lin_objects::Kind;
use lin_tables::Stretch;
use std::alloc::{AllocError, Global};

/// What is told of why there is no legal order.
#[derive(Drop)]
pub(crate) struct Reason {
    /// Where the operations were invoked that are named, among the object's own events, rising.
    pub(crate) named: Vec<usize>,
    pub(crate) why: Option<Why>,
}

/// The name of a certificate's form.
fn form_name(certificate: &Certificate) -> &'static str
    ensures { result.now ≡ name_of certificate.now }
{
    match certificate {
        Certificate::Shape { .. } => "shape",
        Certificate::Unwritten { .. } => "unwritten",
        Certificate::Overwritten { .. } => "overwritten",
        Certificate::Stale { .. } => "stale",
        Certificate::Crossed { .. } => "crossed",
        Certificate::Spent { .. } => "spent",
        Certificate::Taken { .. } => "taken",
        Certificate::Passed { .. } => "passed",
        Certificate::Inside { .. } => "inside",
        Certificate::Preceded { .. } => "preceded",
        Certificate::Remaining { .. } => "remaining",
        Certificate::Surplus { .. } => "surplus",
        Certificate::Unadded { .. } => "unadded",
        Certificate::Lost { .. } => "lost",
        Certificate::Split { .. } => "split",
        Certificate::Late { .. } => "late",
        Certificate::Twice { .. } => "twice",
        Certificate::Counted => "counted",
        Certificate::Within { .. } => "within",
    }
}

/// The position in the whole history of the event at the place.
fn position(picks: &[usize], at: usize) -> usize
    ensures { result ≡ position_in picks.now at }
{
    match picks.get(at) {
        Some(position) => *position,
        None => 0,
    }
}

/// The positions in the whole history of the events at the places.
fn positions(alloc: Global, picks: &[usize], places: &[usize]) -> Result<Vec<usize>, AllocError>
    ensures { IfOk result (λ found. found.items ≡ map (position_in picks.now) places.now) }
{
    let mut found = Vec::new(alloc);
    for at in places {
        found.push(position(picks, *at))?;
    }
    Ok(found)
}

/// A certificate that is told.
#[derive(Drop)]
pub(crate) struct Certified {
    /// Where the operations were invoked that are named, among the object's own events, rising.
    pub(crate) named: Vec<usize>,
    pub(crate) why: Why,
}

/// Puts the lines of a certificate last that holds of the object's events.
pub(crate) fn put_certificate(
    alloc: Global,
    text: &mut Vec<u8>,
    kind: Kind,
    stretch: &Stretch,
    certificate: &Certificate,
) -> Result<Certified, OutOfMemory>
    requires table { IsNextTable stretch.now.events.now stretch.now.ends.now }
    requires holds { Certifies stretch.now.events.now kind certificate.now }
    ensures { IfOk result (λ told. (lines : List ℕ) × IsWhy kind (told_of stretch.now) lines told.named.items told.why × (text.new.items ≡ text.old.items ++ lines)) }
{
    let told = ObjectEvents {
        names: stretch.names,
        events: stretch.events,
        ends: stretch.ends,
        picks: stretch.picks,
        places: stretch.places,
    };
    let named = put_reason(text, &told, certificate, alloc)?;
    let calls = positions(alloc, stretch.picks, named.as_slice())?;
    let why = Why {
        name: form_name(certificate),
        calls,
    };
    Ok(Certified { named, why })
}

/// Puts the lines of a certificate last that holds of the object's events, or that none was found, where the failing operation, which was invoked
/// at the place, decides none alone.
pub(crate) fn put_why(
    alloc: Global,
    text: &mut Vec<u8>,
    kind: Kind,
    stretch: &Stretch,
    call: usize,
) -> Result<Reason, OutOfMemory>
    requires { IsNextTable stretch.now.events.now stretch.now.ends.now }
    ensures { IfOk result (λ reason. (lines : List ℕ) × IsWhyText kind (told_of stretch.now) call lines reason.named.items reason.why
        × (text.new.items ≡ text.old.items ++ lines)) }
{
    match find_certificate(alloc, stretch.events, kind, call)? {
        Some(certificate) => {
            let told = put_certificate(alloc, text, kind, stretch, &certificate)?;
            Ok(Reason {
                named: told.named,
                why: Some(told.why),
            })
        }
        None => {
            text.extend_from_slice(b"why: no short reason was found\n")?;
            Ok(Reason {
                named: Vec::new(alloc),
                why: None,
            })
        }
    }
}
