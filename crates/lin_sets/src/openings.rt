//! The latest operation of each process.
ghost use Rattle.std.specs.Prelude.{◌≡◌, ℕ, None, Some, IsSome, OnOk, OnErr, if◌then◌else◌, nat_eq};
ghost use Rattle.lin_sets.specs.Openings.{IsRestored, opened_in};

use lin_events::{Call, OutOfMemory};
use std::alloc::Global;
use std::collections::HashMap;
use std::marker::Model;

/// Where an operation was invoked, and with which call.
#[derive(Clone, Copy)]
pub(crate) struct Opened {
    pub(crate) at: usize,
    pub(crate) call: Call,
}

/// What each process invoked last, if it invoked something.
#[derive(Drop)]
pub(crate) struct Openings {
    listed: HashMap<u64, Opened>,
}

impl Model for Openings {
    ghost use Rattle.std.specs.Prelude.{ℕ, List};
    ghost use Rattle.lin_sets.specs.declared.openings.Opened.{Opened as OpenedOf};

    ghost Value = { List (ℕ × OpenedOf) };

    ghost view = { λ p. p.listed.entries };
}

impl Openings {
    /// No process invoked anything.
    pub(crate) fn new(alloc: Global) -> Openings
        ensures { (process : ℕ) → opened_in result process ≡ None }
    {
        Openings {
            listed: HashMap::new(alloc),
        }
    }

    pub(crate) fn get(&self, process: u64) -> Option<Opened>
        ensures { result ≡ opened_in self.now process }
    {
        self.listed.get(&process).copied()
    }

    /// The process invoked this.
    pub(crate) fn put(&mut self, process: u64, opened: Opened) -> Result<(), OutOfMemory>
        ensures ok { OnOk result ((other : ℕ) → opened_in self.new other ≡ (if nat_eq process other then Some opened else opened_in self.old other)) }
        ensures err { OnErr result (self.new ≡ self.old) }
    {
        match self.listed.insert(process, opened) {
            Ok(_) => Ok(()),
            Err(_) => Err(OutOfMemory),
        }
    }

    /// The process invoked this last. It is listed already, so this takes no memory.
    pub(crate) fn reset(&mut self, process: u64, opened: Opened)
        ensures { IsSome (opened_in self.old process) → (other : ℕ) → opened_in self.new other ≡ (if nat_eq process other then Some opened else opened_in self.old other) }
    {
        if let Some(listed) = self.listed.get_mut(&process) {
            *listed = opened;
        }
    }

    /// The process invoked this last, or what it did is of no account.
    pub(crate) fn restore(&mut self, process: u64, before: Option<Opened>)
        ensures { IsRestored self.old self.new process before }
    {
        if let Some(opened) = before {
            self.reset(process, opened);
        }
    }
}
