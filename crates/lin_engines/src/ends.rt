//! How an object's events end.

/// Whether the events of an object have a legal order (Herlihy and Wing 1990, section 3). Places count its events from 0.
#[derive(Clone, Copy, Debug, PartialEq, Eq)]
pub enum End {
    /// They have one.
    Alive,
    /// Those up to and with this one have none, those before it have one.
    Dead(usize),
    /// Those up to and with this one have more configurations than the budget.
    Over(usize),
}
