//! Times the audit of a layer and its scans, for comparison with other programs.
//!
//! `twkb_bench FILE REPEATS [WINDOW..] [build [WINDOW..]]` reads FILE whole and certifies it. It scans the layer for each
//! window, hopping over geometries whose box misses it; at the word `build` it builds a directory, with which it scans
//! for the windows after that word. A line for the audit says how many blobs and vertices there are, and a line for each
//! scan how many blobs were found and how many bytes one scan read; each line has the best time of REPEATS. With 0 for
//! REPEATS each step is done once and isn't timed, so that two runs print equal lines. The status is 2 for words that
//! ask for nothing, and 1 for a step that fails.
#![tactic(auto)]

mod request;
mod timed;

use request::{Request, request_of};
use std::alloc::AllocError;
use std::process::ExitCode;
use std::{env, fs, io};
use thiserror::Error;
use timed::{time_audit, time_build, time_hops, time_lookups};
use twkb_layer::Refusal;

const USAGE: &str = "usage: twkb_bench FILE REPEATS [WINDOW..] [build [WINDOW..]]";

/// Why nothing was timed.
#[derive(Debug, Drop, Error)]
enum Failure {
    #[error("{0}")]
    Stream(#[from] io::Error),
    #[error("{0}")]
    Refused(#[from] Refusal),
    #[error("out of memory")]
    Memory(#[from] AllocError),
}

fn main(rt: HostRuntime) -> ExitCode {
    match run(&rt) {
        Ok(true) => ExitCode::SUCCESS,
        Ok(false) => {
            let _ = eprintln!(rt; "{USAGE}");
            ExitCode::from(2)
        }
        Err(error) => {
            let _ = eprintln!(rt; "twkb_bench: {error}");
            ExitCode::FAILURE
        }
    }
}

/// Does what the words ask for, and returns whether they ask for anything.
fn run(rt: &HostRuntime) -> Result<bool, Failure> {
    let words: Vec<String> = env::args(rt)?.collect(rt.alloc())?;
    match request_of(rt.alloc(), words.as_slice())? {
        Some(request) => {
            measure(rt, &request)?;
            Ok(true)
        }
        None => Ok(false),
    }
}

/// Certifies the file and does what is asked for, and times each step.
fn measure(rt: &HostRuntime, request: &Request) -> Result<(), Failure> {
    let bytes = fs::read(rt, request.path)?;
    let mut layer = time_audit(rt, bytes.as_slice(), request.repeats)?;
    time_hops(rt, &mut layer, &request.hops, request.repeats)?;
    if let Some(windows) = &request.lookups {
        let directory = time_build(rt, &mut layer, request.repeats)?;
        time_lookups(rt, &mut layer, &directory, windows, request.repeats)?;
    }
    Ok(())
}
