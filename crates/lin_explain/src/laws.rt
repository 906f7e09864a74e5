//! Where the failures that a no is about come from, and what the lines that explain them mean. The functions do nothing.
ghost use Rattle.lin_explain.specs.Laws.{FailuresAreExplained};
ghost use Rattle.lin_explain.specs.inner.Laws.{BeginningsAreLegal, FailuresEnd, FailuresMean, NoesFail, NoesMean, NoesStayInside};

use lin_events::{bad_positions, beginnings_are_well_formed, well_formed_is_alternating};
use lin_objects::{Any, Kind};
use lin_order::{
    configurations_after_events, legal_orders_end, linearizability_is_local, parts_grow,
    parts_keep_operations, parts_keep_orders, prefixes_are_linearizable_by,
};

/// The event with which legal orders end is the ok or the fail of an operation.
fn failures_end(kind: Kind)
    ensures { FailuresEnd kind }
{
    well_formed_is_alternating();
    beginnings_are_well_formed();
    let object = Any { kind };
    configurations_after_events(&object);
    legal_orders_end(&object);
}

/// A no is about such an event, of an object of the kind.
pub(crate) fn noes_fail(kind: Kind)
    ensures { NoesFail kind }
{
    failures_end(kind);
    beginnings_are_well_formed();
    parts_keep_operations();
    parts_keep_orders();
    parts_grow();
    linearizability_is_local();
}

/// Each beginning of events that have a legal order has one.
pub(crate) fn beginnings_are_legal(kind: Kind)
    ensures { BeginningsAreLegal kind }
{
    beginnings_are_well_formed();
    prefixes_are_linearizable_by(&Any { kind });
}

/// A no of an object is about an event of its own.
fn noes_stay_inside()
    ensures { NoesStayInside }
{
    beginnings_are_well_formed();
    parts_keep_operations();
    parts_keep_orders();
    parts_grow();
    linearizability_is_local();
}

/// What such a failure means.
fn failures_mean(kind: Kind)
    ensures { FailuresMean kind }
{
    well_formed_is_alternating();
    bad_positions();
    let object = Any { kind };
    configurations_after_events(&object);
    legal_orders_end(&object);
}

/// So do noes that are about an object of the kind.
fn noes_mean(kind: Kind)
    ensures { NoesMean kind }
{
    noes_fail(kind);
    noes_stay_inside();
    failures_mean(kind);
}

/// What the lines that explain a no mean, of its object's events up to and with the failing end: these have no legal order, and those before it
/// have one. After an ok, the replies that are right for the failing operation are just those with which there would be a legal order, so the recorded one
/// isn't; after a fail, each legal order of the events before places it. Where an event is quiet, each such order has all ok operations that were invoked
/// earlier ahead of all that were invoked there or later. The function does nothing.
pub fn failures_are_explained()
    ensures { FailuresAreExplained }
{
    noes_mean(Kind::Register);
    noes_mean(Kind::CasRegister);
    noes_mean(Kind::Fifo);
    noes_mean(Kind::Set);
    noes_mean(Kind::Mutex);
    noes_mean(Kind::Bag);
}
