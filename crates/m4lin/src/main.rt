//! The program m4lin: exact linear algebra over GF(2) on matrix files.
#![tactic(auto)]

#[cfg(test)]
mod tests;

use m4_cmd::{FileShelf, OpenGate, Status, StreamSink, exit_code};
use std::env::Env;
use std::io::ErrorKind;
use std::process::ExitCode;
use std::{env, io};

fn main(rt: HostRuntime) -> ExitCode {
    let words = match words_of(&rt) {
        Ok(words) => words,
        Err(status) => return ExitCode::from(status.code()),
    };
    let mut files = FileShelf::new(&rt);
    let mut out = StreamSink::new(rt.stdout());
    let mut err = StreamSink::new(rt.stderr());
    ExitCode::from(exit_code(
        rt.alloc(),
        &words,
        &mut files,
        &mut out,
        &mut err,
        &OpenGate,
    ))
}

/// The words after the program's name. Where one is no UTF-8 or memory is wanting, the status to end with.
fn words_of<R: Env + AllocGlobal>(rt: &R) -> Result<Vec<String>, Status> {
    let mut args = env::args(rt).map_err(status_of)?;
    args.next();
    args.collect(rt.alloc()).map_err(|_| Status::Memory)
}

/// Why the words can't be had.
fn status_of(error: io::Error) -> Status {
    match error.kind() {
        ErrorKind::OutOfMemory => Status::Memory,
        _ => Status::Words(1),
    }
}
