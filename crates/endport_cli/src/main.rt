//! The program: it checks a file, and ends with the status's code.
#![tactic(auto)]

use endport::{Status, endport};
use ep_io::{FileSource, StdSink, command_words};
use std::process::ExitCode;

fn main(rt: HostRuntime) -> ExitCode {
    ExitCode::from(run(&rt).code())
}

// Words that can't be gathered for want of memory end the program as any want of memory does.
fn run(rt: &HostRuntime) -> Status {
    let alloc = rt.alloc();
    let Ok(words) = command_words(rt) else {
        return Status::Memory;
    };
    endport(
        alloc,
        &words,
        &mut FileSource::new(rt),
        &mut StdSink::new(rt),
    )
}
