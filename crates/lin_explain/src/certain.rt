//! What is certain where it isn't known how events end: what the no of an object says of the whole, and what a certificate says of its object.
ghost use Rattle.std.specs.Prelude.{◌≡◌, ◌≤◌, ◌+◌, ◌++◌, ℕ, List, IfOk, OnOk, length, option_map};
ghost use Rattle.lin_order.specs.Tables.{IsNextTable};
ghost use Rattle.lin_tables.specs.WindowTables.{Told as ToldOf, told_of};
ghost use Rattle.lin_explain.specs.Certain.{CertificatesAreCertain, IsCertainText, NoesAreCertain, certain_line};
ghost use Rattle.lin_explain.specs.Own.{IsStretch};
ghost use Rattle.lin_explain.specs.inner.Own.{stretch_of};

use crate::own::{Own, own_of};
use crate::parts::Why;
use crate::spots::Origin;
use crate::sums::certificate_of_all;
use crate::whys::put_certificate;
use lin_answers::Present;
use lin_certificates::certificates_exclude_orders;
use lin_events::{Event, Item, Meter, OutOfMemory};
use lin_names::Names;
use lin_objects::Kind;
use lin_order::{ends_of, linearizability_is_local, parts_keep_orders, prefixes_are_linearizable};
use lin_tables::Stretch;
use lin_texts::put_item;
use std::alloc::{AllocError, Global};

/// An object's no means that the whole has no legal order. The function does nothing.
pub fn noes_are_certain()
    ensures { NoesAreCertain }
{
    linearizability_is_local();
    prefixes_are_linearizable();
}

/// Puts the line last that names an object without a legal order beside an undecided whole.
pub fn put_certain(text: &mut Vec<u8>, names: &Names, key: Item) -> Result<(), AllocError>
    ensures { OnOk result (text.new.items ≡ text.old.items ++ certain_line names.now key) }
{
    text.extend_from_slice(b"not linearizable all the same: object ")?;
    put_item(text, names, key)?;
    text.extend_from_slice(b" has no legal order\n")
}

/// A certificate that holds of all events of an object means that the whole has no legal order. The function does nothing.
pub fn certificates_are_certain()
    ensures { CertificatesAreCertain }
{
    certificates_exclude_orders();
    linearizability_is_local();
    parts_keep_orders();
}

/// Puts last that the object has no legal order all the same, and why, where a certificate of its events is found.
fn put_found(
    alloc: Global,
    text: &mut Vec<u8>,
    kind: Kind,
    stretch: &Stretch,
) -> Result<Option<Why>, OutOfMemory>
    requires { IsNextTable stretch.now.events.now stretch.now.ends.now }
    ensures { IfOk result (λ why. (lines : List ℕ) × IsCertainText kind (told_of stretch.now) lines why × (text.new.items ≡ text.old.items ++ lines)) }
{
    let Some(certificate) = certificate_of_all(alloc, stretch.events, stretch.ends, kind)? else {
        return Ok(None);
    };
    text.extend_from_slice(b"not linearizable all the same:\n")?;
    let told = put_certificate(alloc, text, kind, stretch, &certificate)?;
    Ok(Some(told.why))
}

/// The same of these events of an object.
fn put_certain_own(
    alloc: Global,
    text: &mut Vec<u8>,
    own: &Own,
    kind: Kind,
    origin: &Origin,
) -> Result<Option<Why>, OutOfMemory>
    ensures { IfOk result (λ why. (lines : List ℕ) × IsCertainText kind (stretch_of origin.now.names.now own.now (option_map (λ p. p.now) origin.now.places)) lines why
        × (text.new.items ≡ text.old.items ++ lines)) }
{
    let ends = ends_of(alloc, own.events.as_slice())?;
    let stretch = Stretch {
        events: own.events.as_slice(),
        ends: ends.as_slice(),
        picks: own.picks.as_slice(),
        names: origin.names,
        places: origin.places,
    };
    put_found(alloc, text, kind, &stretch)
}

/// The same of all events of the object of an event. The pass through the whole history is counted.
pub(crate) fn put_certain_reason(
    alloc: Global,
    text: &mut Vec<u8>,
    present: &Present<'_>,
    of: &Event,
    kind: Kind,
    origin: &Origin,
    meter: &mut Meter,
) -> Result<Option<Why>, OutOfMemory>
    ensures told { IfOk result (λ why. (whole : ToldOf) × (lines : List ℕ)
        × IsStretch origin.now.names.now of.now.key present.now.history (option_map (λ p. p.now) origin.now.places) whole
        × IsCertainText kind whole lines why × (text.new.items ≡ text.old.items ++ lines)) }
    ensures least { meter.old.steps ≤ meter.new.steps }
    ensures most { meter.new.steps ≤ meter.old.steps + length present.now.history }
    ensures scans { meter.new.scans ≡ meter.old.scans }
{
    let own = own_of(alloc, present, of, present.len(), meter)?;
    put_certain_own(alloc, text, &own, kind, origin)
}
