//! What an engine says of the next event.

/// What an engine says of the next event.
#[derive(Clone, Copy, Debug, PartialEq, Eq)]
pub enum Says {
    /// It took the event in.
    On,
    /// The events up to and with this one have no legal order.
    Dead,
    /// Those up to and with the one at this place have more configurations than the budget: this one, or the one before it.
    Over(usize),
    /// Nothing, from here on.
    Gone,
}
