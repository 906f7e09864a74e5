//! Where the operations of a history return.
ghost use Rattle.std.specs.Prelude.{◌<◌, IfSome};

use lin_events::{Body, Event, OutOfMemory};
use std::alloc::Global;

/// In place of where an operation returned that never did.
pub const NEVER: u32 = 0;

/// The same of one that failed.
pub const FAILED: u32 = u32::MAX;

/// So many operations may be open at a time.
pub const OPEN: usize = 64;

/// The bit of a slot.
#[inline(always)]
pub fn bit(slot: usize) -> u64 {
    1u64.wrapping_shl((slot & 63) as u32)
}

/// The lowest slot of a mask.
#[inline(always)]
pub fn lowest_slot(mask: u64) -> usize
    ensures { result < 64 }
{
    (mask.trailing_zeros() as usize).min(63)
}

/// The processes whose operations are open, and where these were invoked.
#[derive(Drop)]
struct Callers {
    used: u64,
    processes: [u64; OPEN],
    begun: [u32; OPEN],
}

impl Callers {
    /// The slot of the process, which mostly is the one that its number names.
    #[inline(always)]
    fn find(&self, process: u64) -> Option<usize>
        ensures { IfSome result (λ slot. slot < 64) }
    {
        let guess = (process & 63) as usize;
        if self.processes[guess] == process && self.used & bit(guess) != 0 {
            return Some(guess);
        }
        self.find_elsewhere(process)
    }

    #[inline(never)]
    fn find_elsewhere(&self, process: u64) -> Option<usize>
        ensures { IfSome result (λ slot. slot < 64) }
    {
        for slot in 0..OPEN {
            if self.processes[slot] == process && self.used & bit(slot) != 0 {
                return Some(slot);
            }
        }
        None
    }

    /// The process invoked an operation there. Whether there is a slot for it.
    #[inline(always)]
    fn begin(&mut self, process: u64, at: u32) -> bool {
        let guess = (process & 63) as usize;
        let slot = if self.used & bit(guess) == 0 {
            guess
        } else if self.used != u64::MAX {
            lowest_slot(!self.used)
        } else {
            return false;
        };
        self.used |= bit(slot);
        self.processes[slot] = process;
        self.begun[slot] = at;
        true
    }

    /// The process's operation is open no longer. Where it was invoked.
    #[inline(always)]
    fn end(&mut self, process: u64) -> Option<u32> {
        let slot = self.find(process)?;
        self.used &= !bit(slot);
        Some(self.begun[slot])
    }
}

/// For each invocation where its operation returned, `NEVER` or `FAILED`; for other events `NEVER`. Nothing where more operations are open at a
/// time than can be.
pub fn returns_of(alloc: Global, events: &[Event]) -> Result<Option<Vec<u32>>, OutOfMemory> {
    if events.len() >= FAILED as usize {
        return Ok(None);
    }
    let mut returns = vec![in alloc; NEVER; events.len()]?;
    let mut callers = Callers {
        used: 0,
        processes: [0; OPEN],
        begun: [0; OPEN],
    };
    for (at, event) in events.iter().enumerate() {
        let place = (at & 0xffff_ffff) as u32;
        let end = match &event.body {
            Body::Invoke(_) => {
                if !callers.begin(event.process, place) {
                    return Ok(None);
                }
                continue;
            }
            Body::Ok(_, _) => place,
            Body::Fail(_) => FAILED,
            Body::Info(_) => NEVER,
        };
        if let Some(begun) = callers.end(event.process)
            && let Some(mate) = returns.get_mut(begun as usize)
        {
            *mate = end;
        }
    }
    Ok(Some(returns))
}
