//! Turbo Pascal programs, from their sources to what they write.
#![tactic(auto)]

use commands::turbo;
use std::process::ExitCode;
use std::{env, io, rt};
use tp_outside::{RealFiles, RealSink, RealSource};

fn main(rt: HostRuntime) -> io::Result<ExitCode> {
    let mut words = Vec::new(rt.alloc());
    for word in env::args(&rt)?.skip(1) {
        words.push(word)?;
    }
    let mut files = RealFiles::new(rt.clone()?);
    let mut input = RealSource::new(rt.stdin());
    let mut output = RealSink::new(rt.stdout());
    let mut errors = RealSink::new(rt.stderr());
    let outcome = turbo(
        rt.alloc(),
        words.as_slice(),
        &mut files,
        &mut input,
        &mut output,
        &mut errors,
    );
    Ok(ExitCode::from(outcome.status()))
}
