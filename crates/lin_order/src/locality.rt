//! Laws of the orders for the objects of a history, for the proofs of crates above (locality, Herlihy and Wing 1990,
//! section 3). The functions do nothing.
ghost use Rattle.lin_order.specs.Merging.{AbsentKeysAreLegal, IsLocal, MergedOrdersAreLegal};

/// Legal orders for the objects of a history, merged, are a legal order of the whole.
pub fn merged_orders_are_legal()
    ensures { MergedOrdersAreLegal }
{}

/// The empty order is a legal one for an object that has no event.
pub fn absent_keys_are_legal()
    ensures { AbsentKeysAreLegal }
{}

/// A history is linearizable exactly when it is so for each object.
pub fn linearizability_is_local()
    ensures { IsLocal }
{}
