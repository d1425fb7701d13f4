//! The workbench: `batch` answers a script from standard input on standard output.
#![tactic(auto)]

use rw_io::{NoDisk, NoDoors, Reading, Writing};
use rw_top::top;
use std::process::ExitCode;
use std::{env, io};

// The words after the program's name.
fn words(rt: &HostRuntime) -> io::Result<Vec<String>> {
    let mut words = Vec::new(rt.alloc());
    for word in env::args(rt)?.skip(1) {
        words.push(word)?;
    }
    Ok(words)
}

fn status(rt: &HostRuntime) -> u8 {
    match words(rt) {
        Ok(words) => top(
            rt.alloc(),
            &words,
            &mut Reading::new(rt.stdin()),
            &mut Writing::new(rt.stdout()),
            &mut NoDisk::new(),
            &mut NoDoors::new(),
        ),
        Err(error) if error.kind() == io::ErrorKind::OutOfMemory => 6,
        Err(_) => 2,
    }
}

fn main(rt: HostRuntime) -> ExitCode {
    ExitCode::from(status(&rt))
}
