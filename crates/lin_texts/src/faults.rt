//! Why a run ends early, and why an order's text is refused.
ghost use Rattle.std.specs.Prelude.{◌≡◌};
ghost use Rattle.lin_texts.specs.declared.faults.OrderFault.TheVariants as order_faults;
ghost use Rattle.lin_texts.specs.declared.faults.RunFault.TheVariants as run_faults;

use lin_events::OutOfMemory;
use std::alloc::{AllocError, AllocFailed};
use thiserror::Error;

/// Why a run ends early.
#[derive(Clone, Copy, Debug, PartialEq, Eq, Error)]
pub enum RunFault {
    /// The reader failed.
    #[error("1 ReadFailed")]
    ReadFailed,
    /// The writer failed, or took nothing.
    #[error("2 WriteFailed")]
    WriteFailed,
    /// Memory that was asked for was refused.
    #[error("3 OutOfMemory")]
    OutOfMemory,
    /// The reader gave more than 1,099,511,627,776 bytes.
    #[error("4 TooMuch")]
    TooMuch,
}

/// Why the text of an order is refused.
#[derive(Clone, Copy, Debug, PartialEq, Eq, Error)]
pub enum OrderFault {
    /// The word whose first byte stands at this place is no pair, or there is no word and the place is 0.
    #[error("1 BadPair at {at}")]
    BadPair { at: usize },
    /// Memory that was asked for was refused.
    #[error("2 OutOfMemory")]
    OutOfMemory,
}

impl From<OutOfMemory> for OrderFault {
    ghost from_gives = { λ _ fault. fault ≡ order_faults.OutOfMemory };

    fn from(_error: OutOfMemory) -> OrderFault {
        OrderFault::OutOfMemory
    }
}

impl<T: Drop> From<AllocFailed<T>> for OrderFault {
    ghost from_gives = { λ _ fault. fault ≡ order_faults.OutOfMemory };

    fn from(_error: AllocFailed<T>) -> OrderFault {
        OrderFault::OutOfMemory
    }
}

impl From<AllocError> for RunFault {
    ghost from_gives = { λ _ fault. fault ≡ run_faults.OutOfMemory };

    fn from(_error: AllocError) -> RunFault {
        RunFault::OutOfMemory
    }
}

impl<T: Drop> From<AllocFailed<T>> for RunFault {
    ghost from_gives = { λ _ fault. fault ≡ run_faults.OutOfMemory };

    fn from(_error: AllocFailed<T>) -> RunFault {
        RunFault::OutOfMemory
    }
}

impl From<OutOfMemory> for RunFault {
    ghost from_gives = { λ _ fault. fault ≡ run_faults.OutOfMemory };

    fn from(_error: OutOfMemory) -> RunFault {
        RunFault::OutOfMemory
    }
}
