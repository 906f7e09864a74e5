//! How far the reading of a file is, told on a terminal, and that a file became shorter than what was read of it, or holds other bytes there.
ghost use Rattle.std.specs.Io.{ReadsAtMost, WritesAtMost};
ghost use Rattle.std.specs.Io.KnownBytes.{Keeps, ReadConsumes, WriteAppends};

use std::cell::Cell;
use std::fs::File;
use std::io;
use std::io::{IsTerminal, Read, Write};
use std::os::unix::fs::FileExt;
use std::time::Instant;

/// For how many seconds a reading goes on before it is told how far it is, and from then to the next time.
const PAUSE: u64 = 1;

/// The length up to which the name of a file is told, so that the line fits in a row of the terminal.
const LONGEST_NAME: usize = 40;

/// So many of the last bytes that were read are kept, to be looked at again before more are.
const TAIL: usize = 64;

/// The line of standard error that tells how far a reading is. Errors of standard error are ignored.
#[derive(Drop)]
pub struct ProgressLine<'a> {
    runtime: &'a HostRuntime,
    is_shown: Cell<bool>,
}

impl<'a> ProgressLine<'a> {
    /// A line that isn't shown yet.
    pub fn new(runtime: &'a HostRuntime) -> ProgressLine<'a> {
        ProgressLine {
            runtime,
            is_shown: Cell::new(false),
        }
    }

    /// Tells how much of the file is read, in place of what the line told before.
    fn show(&self, name: &str, bytes: u64) {
        let (count, unit) = if bytes < 1_000_000 {
            (bytes / 1_000, "kB")
        } else {
            (bytes / 1_000_000, "MB")
        };
        let _is_told = eprint!(self.runtime; "\rlincheck: {count} {unit} of {name} read\x1b[K");
        self.is_shown.set(true);
    }

    /// Wipes the line, if it is shown.
    pub fn wipe(&self) {
        if self.is_shown.take() {
            let _is_wiped = eprint!(self.runtime; "\r\x1b[K");
        }
    }
}

/// A reading that is watched.
#[derive(Drop)]
struct Watch<'a> {
    progress: &'a ProgressLine<'a>,
    name: String,
    bytes: u64,
    // When the reading was begun, or last told of; none where none is under way.
    told: Option<Instant>,
}

impl<'a> Watch<'a> {
    /// Tells how far the reading is once it goes on for longer than a pause, and again after each further pause.
    fn advance(&mut self, count: usize) {
        self.bytes = self.bytes.saturating_add(count as u64);
        let Ok(now) = Instant::now(self.progress.runtime) else {
            return;
        };
        match self.told {
            None => self.told = Some(now),
            Some(told) => {
                if now.duration_since(told).as_secs() >= PAUSE {
                    self.progress.show(self.name.as_str(), self.bytes);
                    self.told = Some(now);
                }
            }
        }
    }

    /// Takes back what was told: the reading is at an end. The file may grow, and be read further.
    fn end(&mut self) {
        self.progress.wipe();
        self.told = None;
    }
}

/// How much of a file of this name is read.
#[derive(Drop)]
struct Extent<'a> {
    progress: &'a ProgressLine<'a>,
    name: String,
    bytes: u64,
    // The last bytes that were read, as many as are kept.
    tail: [u8; TAIL],
    kept: usize,
    // Whether the last read found no more.
    is_at_end: bool,
    // Whether it was told that the file is shorter, or holds other bytes.
    is_cut: bool,
    is_changed: bool,
}

impl<'a> Extent<'a> {
    /// Counts bytes that were read.
    fn add(&mut self, read: &[u8]) {
        self.bytes = self.bytes.saturating_add(read.len() as u64);
        self.kept = read.len().min(TAIL);
        for (kept, byte) in self.tail.iter_mut().zip(&read[read.len() - self.kept..]) {
            *kept = *byte;
        }
    }

    /// Tells once that the file holds other bytes where the last ones were read, before more are read behind them, if it does.
    fn tell_if_changed<F: Reread>(&mut self, file: &F) {
        if !self.is_at_end || self.is_changed {
            return;
        }
        let mut now = [0; TAIL];
        let from = self.bytes.saturating_sub(self.kept as u64);
        let is_whole = file
            .bytes_at(from, &mut now)
            .is_some_and(|found| found >= self.kept);
        let is_same = now
            .iter()
            .zip(&self.tail)
            .take(self.kept)
            .all(|(now, read)| now == read);
        if is_same || !is_whole {
            return;
        }
        self.is_changed = true;
        self.progress.wipe();
        let name = self.name.as_str();
        let _is_told = eprintln!(self.progress.runtime;
            "lincheck: {name}: the bytes that were read of it have changed"
        );
    }

    /// Tells once that the file, which gives no more bytes and is so long, is shorter than what was read of it, if it is.
    fn tell_if_cut(&mut self, length: Option<u64>) {
        match length {
            Some(length) if length < self.bytes && !self.is_cut => {}
            _ => return,
        }
        self.is_cut = true;
        self.progress.wipe();
        let name = self.name.as_str();
        let _is_told = eprintln!(self.progress.runtime;
            "lincheck: {name}: it is shorter than what was read of it"
        );
    }
}

/// What can be asked beside its reading.
pub trait Reread {
    /// How many bytes it has, if it is a plain file.
    fn length(&self) -> Option<u64>;

    /// Puts the bytes that it has from a place on into the list, and tells how many, if they can be read there.
    fn bytes_at(&self, place: u64, bytes: &mut [u8]) -> Option<usize>;
}

impl Reread for File {
    fn length(&self) -> Option<u64> {
        let found = self.metadata().ok()?;
        if found.is_file() {
            Some(found.len())
        } else {
            None
        }
    }

    fn bytes_at(&self, place: u64, bytes: &mut [u8]) -> Option<usize> {
        self.read_at(bytes, place).ok()
    }
}

/// A file, and on a terminal how far its reading is, once that takes more than a second.
#[derive(Drop)]
pub struct Watched<'a, F> {
    file: F,
    watch: Option<Watch<'a>>,
    // None where there was no memory for the name.
    extent: Option<Extent<'a>>,
}

impl<'a, F> Watched<'a, F> {
    /// The file of this name, watched where standard error is a terminal and there is memory for the name.
    pub fn new(progress: &'a ProgressLine<'a>, name: &str, file: F) -> Watched<'a, F> {
        let watch = if progress.runtime.stderr().is_terminal() {
            watch_of(progress, name)
        } else {
            None
        };
        let extent = extent_of(progress, name);
        Watched {
            file,
            watch,
            extent,
        }
    }
}

/// What is read of the file of this name, before anything is.
fn extent_of<'a>(progress: &'a ProgressLine<'a>, name: &str) -> Option<Extent<'a>> {
    Some(Extent {
        progress,
        name: String::from_str(progress.runtime.alloc(), name).ok()?,
        bytes: 0,
        tail: [0; TAIL],
        kept: 0,
        is_at_end: false,
        is_cut: false,
        is_changed: false,
    })
}

/// The watch of a reading that isn't begun, of the file of this name.
fn watch_of<'a>(progress: &'a ProgressLine<'a>, name: &str) -> Option<Watch<'a>> {
    let is_told = name.len() <= LONGEST_NAME && !name.chars().any(|c| c.is_control());
    let told = if is_told { name } else { "the file" };
    Some(Watch {
        progress,
        name: String::from_str(progress.runtime.alloc(), told).ok()?,
        bytes: 0,
        told: None,
    })
}

impl<'a, F: Read + Reread> Read for Watched<'a, F> {
    ghost remaining = { λ w. F.remaining (w.file) };

    fn read(&mut self, buf: &mut [u8]) -> io::Result<usize>
        ensures bound { ReadsAtMost result buf.new }
        ensures bytes { ReadConsumes (F.remaining (self.old.file)) (F.remaining (self.new.file)) result buf.new }
    {
        if let Some(extent) = &mut self.extent {
            extent.tell_if_changed(&self.file);
        }
        let outcome = self.file.read(buf);
        if let Some(watch) = &mut self.watch {
            match &outcome {
                Ok(count) if *count > 0 => watch.advance(*count),
                _ => watch.end(),
            }
        }
        if let (Ok(count), Some(extent)) = (&outcome, &mut self.extent) {
            match buf.get(..*count) {
                Some(read) if *count > 0 => extent.add(read),
                _ => extent.tell_if_cut(self.file.length()),
            }
            extent.is_at_end = *count == 0;
        }
        outcome
    }
}

/// A writer, before whose writes the line that tells of a reading is wiped.
#[derive(Drop)]
pub struct Output<'a, W> {
    progress: &'a ProgressLine<'a>,
    writer: W,
}

impl<'a, W> Output<'a, W> {
    /// The writer beside this line.
    pub fn new(progress: &'a ProgressLine<'a>, writer: W) -> Output<'a, W> {
        Output { progress, writer }
    }
}

impl<'a, W: Write> Write for Output<'a, W> {
    ghost contents = { λ o. W.contents (o.writer) };

    fn write(&mut self, buf: &[u8]) -> io::Result<usize>
        ensures bound { WritesAtMost result buf.now }
        ensures bytes { WriteAppends (W.contents (self.old.writer)) (W.contents (self.new.writer)) result buf.now }
    {
        self.progress.wipe();
        self.writer.write(buf)
    }

    fn flush(&mut self) -> io::Result<()>
        ensures bytes { Keeps (W.contents (self.old.writer)) (W.contents (self.new.writer)) }
    {
        self.writer.flush()
    }
}
