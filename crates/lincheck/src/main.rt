//! Checks recorded histories for linearizability.
#![tactic(auto)]

mod watched;

use lin_program::end_without_words;
pub use lin_program::{
    Line, Message, PassedOver, System, exit_of, exit_of_refusal, line, run_words,
};
use std::fs::File;
use std::io::{Printer, Stdin, Write};
use std::process::ExitCode;
use std::{env, fs, io};
use watched::{Output, ProgressLine, Watched};

/// The system that the program runs on. Nothing is known of it but what it answers.
#[derive(Drop)]
struct Host<'a> {
    runtime: &'a HostRuntime,
    progress: &'a ProgressLine<'a>,
}

impl<'a> System for Host<'a> {
    type File = Watched<'a, File>;

    type Commands = Stdin;

    type Out = Output<'a, Printer<'a, HostRuntime>>;

    ghost words = { record { opens = λ _ _ _. Unit {0}; lacks = λ _ _. Unit {0}; reopens = λ _ _ _. Unit {0}; reads = λ _ _. Unit {0}; writes = λ _ _. Unit {0}; tells = λ _ _ _ _. Unit {0} } };

    fn open(&self, path: &str) -> Option<Watched<'a, File>> {
        let file = File::open(self.runtime, path).ok()?;
        // (it can be opened, and no read of it succeeds)
        if file.metadata().is_ok_and(|it| it.is_dir()) {
            let _told = eprintln!(self.runtime; "lincheck: {path}: it is a directory");
        }
        Some(Watched::new(self.progress, path, file))
    }

    // (between the question and the opening another file may come under that name, and be waited for)
    fn reopen(&self, path: &str) -> Option<Watched<'a, File>> {
        if fs::metadata(self.runtime, path).ok()?.is_file() {
            self.open(path)
        } else {
            None
        }
    }

    // Standard input isn't watched: between its commands there are replies.
    fn commands(&self) -> Stdin {
        self.runtime.stdin()
    }

    fn out(&self) -> Output<'a, Printer<'a, HostRuntime>> {
        Output::new(self.progress, io::writer(self.runtime))
    }

    fn tell(&mut self, message: &Message) -> bool {
        self.progress.wipe();
        let told = match message {
            Message::Refusal(error) => print!(self.runtime; "{error}"),
            Message::NotOpened(path) => println!(self.runtime; "lincheck: cannot open {path}"),
            Message::NothingRead(path) => {
                eprintln!(self.runtime; "lincheck: {path}: no event of a client was read")
            }
            Message::PassedOver(path, passed, is_empty) => {
                tell_passed_over(self.runtime, path, passed, *is_empty)
            }
            Message::Refused(path, words) => {
                eprintln!(self.runtime; "lincheck: {path}: {words}")
            }
            Message::NoKey(path, words) => tell_words(self.runtime, path, words),
            Message::Fault(fault) => println!(self.runtime; "lincheck: {fault}"),
            Message::OutOfMemory => println!(self.runtime; "lincheck: 3 OutOfMemory"),
            Message::NoText => println!(self.runtime; "lincheck: the command line is no text"),
        };
        told.is_ok()
    }
}

/// Tells on standard error which maps of the file of this name were passed over, and whether no other one was an event.
fn tell_passed_over(
    runtime: &HostRuntime,
    path: &str,
    passed: &PassedOver,
    is_empty: bool,
) -> io::Result<()> {
    let count = passed.count();
    let maps = if count == 1 { "map" } else { "maps" };
    let rest = if is_empty {
        ", and no event of a client was read"
    } else {
        ""
    };
    let first = passed
        .first()
        .and_then(|word| std::str::from_utf8(word).ok());
    match first {
        Some(word) => {
            eprintln!(runtime;
                "lincheck: {path}: {count} {maps} passed over, whose process is a keyword ({word} first){rest}"
            )
        }
        None => {
            eprintln!(runtime;
                "lincheck: {path}: {count} {maps} passed over, whose process is a keyword{rest}"
            )
        }
    }
}

/// Tells on standard error of the file of this name what these words say: bytes, as a file may spell a word by any.
fn tell_words(runtime: &HostRuntime, path: &str, words: &[u8]) -> io::Result<()> {
    eprint!(runtime; "lincheck: {path}: ")?;
    let mut errors = runtime.stderr();
    errors.write_all(words)?;
    errors.write_all(b"\n")
}

fn main(rt: HostRuntime) -> ExitCode {
    let alloc = rt.alloc();
    let progress = ProgressLine::new(&rt);
    let mut host = Host {
        runtime: &rt,
        progress: &progress,
    };
    let arguments = match env::args(&rt) {
        Ok(arguments) => arguments,
        Err(error) => return ExitCode::from(end_without_words(&mut host, &error)),
    };
    let owned: Vec<String> = match arguments.collect(alloc) {
        Ok(owned) => owned,
        Err(error) => return ExitCode::from(end_without_words(&mut host, &io::Error::from(error))),
    };
    let words: Vec<&str> = match owned.iter().map(|word| word.as_str()).collect(alloc) {
        Ok(words) => words,
        Err(error) => return ExitCode::from(end_without_words(&mut host, &io::Error::from(error))),
    };
    ExitCode::from(run_words(alloc, &mut host, words.as_slice()))
}
