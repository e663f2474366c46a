// The auditors' command: reads a log, one stamp to a line, from standard input or a named file, and says of each line in plain words what it is, or
// why it is refused; a summary last.
#![tactic(auto)]

use audit_options::arguments::{Complaint, Options, Task};
use audit_run::state::Run;
use audit_run::told::fail;
use audit_tally::kinds::Asked;
use std::env::Env;
use std::io::{Error, ErrorKind, Read, Stderr, Stdin, Stdout};
use std::rt::Files;
use std::{fs, io};

// The three streams that the program is started with.
#[derive(Clone, Copy)]
struct Streams {
    input: Stdin,
    output: Stdout,
    error: Stderr,
}

// The whole of a log that is open. Nothing more can be done about output that is not taken but to say so.
fn audit(log: &mut impl Read, streams: Streams, asked: Asked) {
    let mut run = Run::new(asked, streams.output);
    audit_log::lines::read(log, &streams.error, &mut run);
    audit_summary::print(&mut run);
    if let Some(error) = run.out.error {
        fail(&streams.error, b"audit: standard output", error);
    }
}

// A name that is not UTF-8 is none that a file can be opened by.
fn open<R: Files>(rt: &R, path: &[u8]) -> io::Result<R::File> {
    match str::from_utf8(path) {
        Ok(name) => fs::open(rt, name),
        Err(_) => Err(Error::from(ErrorKind::InvalidFilename)),
    }
}

// A log by the name that argument i gives.
fn audit_named(rt: &(impl Env + Files), streams: Streams, i: usize, asked: Asked) {
    let mut path = [0u8; 4096];
    let n = rt.arg(i, &mut path).unwrap_or(0);
    match open(rt, &path[..n]) {
        Ok(mut log) => audit(&mut log, streams, asked),
        Err(error) => fail(&streams.error, &path[..n], error),
    }
}

fn follow(rt: &(impl Env + Files), streams: Streams, read: Result<Options, Complaint>) {
    match read {
        Err(complaint) => audit_options::arguments::complain(rt, &streams.error, complaint),
        Ok(options) => match options.task {
            Task::Help => audit_options::help::print(&streams.output),
            Task::Audit(None) => {
                let mut log = streams.input;
                audit(&mut log, streams, options.asked);
            }
            Task::Audit(Some(i)) => audit_named(rt, streams, i, options.asked),
        },
    }
}

fn main(rt: HostRuntime) {
    let streams = Streams {
        input: rt.stdin(),
        output: rt.stdout(),
        error: rt.stderr(),
    };
    follow(&rt, streams, audit_options::arguments::read(&rt));
}
