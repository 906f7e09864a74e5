//! Certificates of sets.
ghost use Rattle.std.specs.Prelude.{◌↔◌, IsTrue};
ghost use Rattle.lin_order.specs.Tables.{IsNextTable};
ghost use Rattle.lin_certificates.specs.Certificates.{AreSplit, IsLate, IsLost, IsUnadded, Told};

use crate::operations::{comes_before, is_among};
use crate::passes::{all_behind, is_any};
use crate::words::{Answers, Calls, Which};
use lin_events::{Event, Item};

/// Whether the read has the item, and each add of it failed.
pub fn is_unadded(events: &[Event], ends: &[Option<usize>], read: usize, item: Item) -> bool
    requires { IsNextTable events.now ends.now }
    ensures { IsTrue result ↔ IsUnadded events.now read item }
{
    let has = is_among(events, ends, read, &Which::Returned(Answers::Has(item)));
    let added = is_any(events, ends, &Which::Counts(Calls::Adds(item)));
    has & !added
}

/// Whether the set had the item before the read, which lacks it.
pub fn is_lost(
    events: &[Event],
    ends: &[Option<usize>],
    earlier: usize,
    read: usize,
    item: Item,
) -> bool
    requires { IsNextTable events.now ends.now }
    ensures { IsTrue result ↔ IsLost events.now earlier read item }
{
    let has = is_among(events, ends, earlier, &Which::Returned(Answers::Has(item)));
    let lacks = is_among(events, ends, read, &Which::Returned(Answers::Lacks(item)));
    let before = comes_before(events, ends, earlier, read);
    has & lacks & before
}

/// Whether the read has the one item and lacks the other.
fn tells(events: &[Event], ends: &[Option<usize>], read: usize, item: Item, other: Item) -> bool
    requires { IsNextTable events.now ends.now }
    ensures { IsTrue result ↔ Told events.now item other read }
{
    is_among(
        events,
        ends,
        read,
        &Which::Returned(Answers::Tells(item, other)),
    )
}

/// Whether each of the reads has one of the items and lacks the other.
pub fn are_split(
    events: &[Event],
    ends: &[Option<usize>],
    reads: (usize, usize),
    item: Item,
    other: Item,
) -> bool
    requires { IsNextTable events.now ends.now }
    ensures { IsTrue result ↔ AreSplit events.now reads.0 reads.1 item other }
{
    let one = tells(events, ends, reads.0, item, other);
    let two = tells(events, ends, reads.1, other, item);
    one & two
}

/// Whether the set had the item before the other one was added, which the read has without the item.
pub fn is_late(
    events: &[Event],
    ends: &[Option<usize>],
    earlier: (usize, usize),
    read: usize,
    item: Item,
    other: Item,
) -> bool
    requires { IsNextTable events.now ends.now }
    ensures { IsTrue result ↔ IsLate events.now earlier.0 earlier.1 read item other }
{
    let adds = Which::Counts(Calls::Adds(other));
    let had = is_among(
        events,
        ends,
        earlier.0,
        &Which::Returned(Answers::Has(item)),
    );
    let some = is_among(events, ends, earlier.1, &adds);
    let all = all_behind(events, ends, &adds, earlier.0);
    let told = tells(events, ends, read, other, item);
    had & some & all & told
}
