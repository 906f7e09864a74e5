//! The latest operation of each process.
ghost use Rattle.std.specs.Prelude.{◌≡◌, ℕ, None, OnErr, OnOk};
ghost use Rattle.lin_locks.specs.inner.Latest.{latest_in, with_latest, with_recalled};

use lin_events::{Call, OutOfMemory};
use std::alloc::Global;
use std::collections::HashMap;

/// The operation that a process called last.
#[derive(Clone, Copy)]
pub(crate) struct Running {
    pub(crate) begin: usize,
    pub(crate) call: Call,
}

/// What each process called last, if it called something.
#[derive(Drop)]
pub(crate) struct Latest {
    pub(crate) listed: HashMap<u64, Running>,
}

impl Latest {
    /// No process called anything.
    pub(crate) fn new(alloc: Global) -> Latest
        ensures { (process : ℕ) → latest_in result process ≡ None }
    {
        Latest {
            listed: HashMap::new(alloc),
        }
    }

    pub(crate) fn get(&self, process: u64) -> Option<Running>
        ensures { result ≡ latest_in self.now process }
    {
        self.listed.get(&process).copied()
    }

    /// The process called this.
    pub(crate) fn put(&mut self, process: u64, running: Running) -> Result<(), OutOfMemory>
        ensures put { OnOk result ((other : ℕ) → latest_in self.new other ≡ with_latest (latest_in self.old) process running other) }
        ensures refused { OnErr result ((other : ℕ) → latest_in self.new other ≡ latest_in self.old other) }
    {
        self.listed.insert(process, running)?;
        Ok(())
    }

    /// The process called this last, or nothing, if it is listed. This takes no memory.
    pub(crate) fn recall(&mut self, process: u64, before: Option<Running>)
        ensures { (other : ℕ) → latest_in self.new other ≡ with_recalled (latest_in self.old) process before other }
    {
        match before {
            Some(running) => self.reset(process, running),
            None => self.forget(process),
        }
    }

    fn reset(&mut self, process: u64, running: Running)
        ensures { (other : ℕ) → latest_in self.new other ≡ with_recalled (latest_in self.old) process (Some running) other }
    {
        if let Some(listed) = self.listed.get_mut(&process) {
            *listed = running;
        }
    }

    fn forget(&mut self, process: u64)
        ensures { (other : ℕ) → latest_in self.new other ≡ with_recalled (latest_in self.old) process None other }
    {
        let _ = self.listed.remove(&process);
    }
}
