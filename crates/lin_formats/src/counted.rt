//! Readers and writers that count their failures, and readers that have given a history of no event.
ghost use Rattle.std.specs.Prelude.{◌≡◌, ◌+◌, None, false, min, is_err};
ghost use Rattle.std.specs.Io.{ReadsAtMost, WritesAtMost};
ghost use Rattle.std.specs.Io.KnownBytes.{Keeps, ReadConsumes, WriteAppends};

use crate::inputs::History;
use crate::verdicts::Refusal;
use lin_history::PassedOver;
use std::io;
use std::io::{Read, Write};

/// A reader or a writer that counts its failures: errors of the device, and writes of some bytes that take none. Of a reader it is kept in
/// mind whether it gave a whole history of no event, which maps of one were passed over, and why it was refused last.
#[derive(Drop)]
pub struct Counted<T> {
    inner: T,
    failures: u64,
    is_empty: bool,
    passed: PassedOver,
    refused: Option<Refusal>,
}

impl<T> Counted<T> {
    ghost use Rattle.lin_formats.specs.Devices.{device_of, failures_of, is_empty_of, passed_of, refused_of};
    ghost use Rattle.lin_formats.specs.Histories.{passed_with, says_nothing};
    ghost use Rattle.lin_history.specs.Counts.{none_passed};

    /// The device, with no failure so far.
    pub fn new(inner: T) -> Counted<T>
        ensures device { device_of result ≡ inner }
        ensures none { failures_of result ≡ 0 }
        ensures unread { is_empty_of result ≡ false }
        ensures unpassed { passed_of result ≡ none_passed }
        ensures unrefused { refused_of result ≡ None }
    {
        Counted {
            inner,
            failures: 0,
            is_empty: false,
            passed: PassedOver::none(),
            refused: None,
        }
    }

    /// Whether the history that was read from it last was whole and had no event.
    pub fn is_empty(&self) -> bool
        ensures { result ≡ is_empty_of self.now }
    {
        self.is_empty
    }

    /// The maps that were passed over in the history that was read from it last, since a keyword other than `:nemesis` is their process;
    /// none where it was refused.
    pub fn passed(&self) -> PassedOver
        ensures { result ≡ passed_of self.now }
    {
        self.passed.copy()
    }

    /// Why what was read from it last is refused, if it is.
    pub fn refused(&self) -> Option<Refusal>
        ensures { result ≡ refused_of self.now }
    {
        self.refused
    }

    /// Keeps in mind why what was read from it last is refused, if it is.
    pub fn keep_refusal(&mut self, refused: Option<Refusal>)
        ensures { self.new ≡ record self.old { refused = refused } }
    {
        self.refused = refused;
    }

    /// Keeps in mind whether this history, which was read from it, is whole and has no event, and which maps were passed over in it.
    pub fn has_given(&mut self, history: &History, passed: PassedOver)
        ensures device { device_of self.new ≡ device_of self.old }
        ensures failures { failures_of self.new ≡ failures_of self.old }
        ensures noted { is_empty_of self.new ≡ says_nothing history.now }
        ensures passed { passed_of self.new ≡ passed_with history.now passed }
    {
        match history {
            History::Whole(events) => {
                self.is_empty = events.is_empty();
                self.passed = passed;
            }
            History::Refused(_) => {
                self.is_empty = false;
                self.passed = PassedOver::none();
            }
        }
    }

    /// How many calls have failed, up to the greatest number.
    pub fn failures(&self) -> u64
        ensures { result ≡ failures_of self.now }
    {
        self.failures
    }

    fn count(&mut self)
        ensures device { device_of self.new ≡ device_of self.old }
        ensures counts { failures_of self.new ≡ min (failures_of self.old + 1) u64.MAX }
    {
        self.failures = self.failures.saturating_add(1);
    }
}

impl<R: Read> Read for Counted<R> {
    ghost use Rattle.lin_formats.specs.Devices.{device_of, failures_of, Counts};

    ghost remaining = { λ c. R.remaining (device_of c) };

    fn read(&mut self, buf: &mut [u8]) -> io::Result<usize>
        ensures bound { ReadsAtMost result buf.new }
        ensures bytes { ReadConsumes (R.remaining (device_of self.old)) (R.remaining (device_of self.new)) result buf.new }
        ensures counts { Counts (is_err result) (failures_of self.old) (failures_of self.new) }
    {
        let outcome = self.inner.read(buf);
        if outcome.is_err() {
            self.count();
        }
        outcome
    }
}

impl<W: Write> Write for Counted<W> {
    ghost use Rattle.lin_formats.specs.Devices.{device_of, failures_of, takes_nothing, Counts};

    ghost contents = { λ c. W.contents (device_of c) };

    fn write(&mut self, buf: &[u8]) -> io::Result<usize>
        ensures bound { WritesAtMost result buf.now }
        ensures bytes { WriteAppends (W.contents (device_of self.old)) (W.contents (device_of self.new)) result buf.now }
        ensures counts { Counts (takes_nothing buf.now result) (failures_of self.old) (failures_of self.new) }
    {
        let outcome = self.inner.write(buf);
        let failed = match &outcome {
            Ok(taken) => *taken == 0 && !buf.is_empty(),
            Err(_) => true,
        };
        if failed {
            self.count();
        }
        outcome
    }

    fn flush(&mut self) -> io::Result<()>
        ensures bytes { Keeps (W.contents (device_of self.old)) (W.contents (device_of self.new)) }
        ensures counts { Counts (is_err result) (failures_of self.old) (failures_of self.new) }
    {
        let outcome = self.inner.flush();
        if outcome.is_err() {
            self.count();
        }
        outcome
    }
}
