//! The operations of an order.
use lin_events::Reply;

/// One operation of an order with its reply. The operation is the position of its invocation in the history.
#[derive(Drop)]
pub struct Placed {
    pub at: usize,
    pub reply: Reply,
}
