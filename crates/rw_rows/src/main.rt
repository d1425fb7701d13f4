//! Many scripts: the top call answers each of them, from an empty project. The examples are shown by it.
#![tactic(auto)]

mod answers;
mod headings;
mod rows;
mod stop;

use rows::rows;
use rw_io::{Reading, Writing};
use std::process::ExitCode;

fn main(rt: HostRuntime) -> ExitCode {
    let mut input = Reading::new(rt.stdin());
    let mut output = Writing::new(rt.stdout());
    match rows(rt.alloc(), &mut input, &mut output) {
        Ok(()) => ExitCode::from(0),
        Err(stop) => ExitCode::from(stop.status()),
    }
}
