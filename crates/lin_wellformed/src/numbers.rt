//! Processes by number.
ghost use Rattle.std.specs.Prelude.{◌≡◌, [], ℕ, IfOk, IfSome, OnErr, Some, slice_get};
ghost use Rattle.lin_wellformed.specs.Tables.{AreEachOnce};

use crate::codes::{code_of, grow, place_of};
use indexmap::IndexSet;
use lin_events::OutOfMemory;
use std::alloc::Global;
use std::marker::Model;

/// The numbers of processes below this one are found without a hash.
const SMALL: u64 = 1024;

/// Processes, each once. The number of a process is how many others were seen first.
#[derive(Drop)]
pub(crate) struct Numbers {
    listed: IndexSet<u64>,
    /// For each small process the code of its number, if that is kept here.
    small: Vec<u32>,
}

impl Model for Numbers {
    ghost use Rattle.std.specs.Prelude.{ℕ, List};
    ghost use Rattle.lin_wellformed.specs.Tables.{AreNumbers};

    ghost Value = { List ℕ };

    ghost view = { λ n. n.listed.keys };

    ghost invariant = { λ n. AreNumbers n.listed.keys n.small.items };
}

impl Numbers {
    /// No process was seen.
    pub(crate) fn new(alloc: Global) -> Numbers
        ensures { result ≡ [] }
    {
        Numbers {
            listed: IndexSet::new(alloc),
            small: Vec::new(alloc),
        }
    }

    /// The number of the process, which is put last if it isn't listed.
    pub(crate) fn number(&mut self, process: u64) -> Result<usize, OutOfMemory>
        ensures number { IfOk result (λ number. slice_get self.new number ≡ Some process) }
        ensures kept { (number other : ℕ) → slice_get self.old number ≡ Some other → slice_get self.new number ≡ Some other }
        ensures once { AreEachOnce self.new }
        ensures err { OnErr result (self.new ≡ self.old) }
    {
        if let Some(number) = self.find(process) {
            return Ok(number);
        }
        let (number, _) = self.listed.insert_full(process)?;
        if process < SMALL {
            self.keep(process as usize, number);
        }
        Ok(number)
    }

    /// The number of the process, if it is a small one and its number is kept.
    fn find(&self, process: u64) -> Option<usize>
        ensures number { IfSome result (λ number. slice_get self.now number ≡ Some process) }
        ensures once { AreEachOnce self.now }
    {
        match self.small.get(process as usize) {
            Some(code) => place_of(*code),
            None => None,
        }
    }

    /// Keeps the number of a small process, where there is memory for it: else it is found by its hash.
    fn keep(&mut self, process: usize, number: usize)
        requires { slice_get self.old number ≡ Some process }
        ensures { self.new ≡ self.old }
    {
        if let Ok(code) = code_of(number)
            && grow(&mut self.small, process).is_ok()
        {
            self.small[process] = code;
        }
    }
}
