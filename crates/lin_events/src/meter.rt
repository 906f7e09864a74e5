//! Counts of work.
ghost use Rattle.std.specs.Prelude.{◌≡◌, ◌+◌, min};

/// How often events were scanned, frontiers advanced, and calls tried. Each count stays at `u64::MAX` once it is there.
#[derive(Drop)]
pub struct Meter {
    scans: u64,
    steps: u64,
    tries: u64,
}

impl Meter {
    /// Nothing counted.
    pub fn new() -> Meter
        ensures { result ≡ record { scans = 0; steps = 0; tries = 0 } }
    {
        Meter {
            scans: 0,
            steps: 0,
            tries: 0,
        }
    }

    /// How many events were scanned.
    pub fn scans(&self) -> u64
        ensures { result ≡ self.now.scans }
    {
        self.scans
    }

    /// How often a frontier was advanced.
    pub fn steps(&self) -> u64
        ensures { result ≡ self.now.steps }
    {
        self.steps
    }

    /// How often a call was tried.
    pub fn tries(&self) -> u64
        ensures { result ≡ self.now.tries }
    {
        self.tries
    }

    /// One more event scanned.
    pub fn tick_scan(&mut self)
        ensures { self.new ≡ record self.old { scans = min (self.old.scans + 1) u64.MAX } }
    {
        self.scans = self.scans.saturating_add(1);
    }

    /// One more frontier advanced.
    pub fn tick_step(&mut self)
        ensures { self.new ≡ record self.old { steps = min (self.old.steps + 1) u64.MAX } }
    {
        self.steps = self.steps.saturating_add(1);
    }

    /// One more call tried.
    pub fn tick_try(&mut self)
        ensures { self.new ≡ record self.old { tries = min (self.old.tries + 1) u64.MAX } }
    {
        self.tries = self.tries.saturating_add(1);
    }
}
