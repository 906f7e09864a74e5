//! Lists that members had, to be written anew.
use crate::offers::OfferList;
use lin_frontier::{PairList, Spare};
use std::alloc::Global;

/// Lists that members had.
#[derive(Drop)]
pub struct Pool {
    pub offers: Spare<OfferList>,
    pub pairs: Spare<PairList>,
}

impl Pool {
    /// No list.
    pub fn new(alloc: Global) -> Self {
        Pool {
            offers: Spare::new(alloc),
            pairs: Spare::new(alloc),
        }
    }
}
