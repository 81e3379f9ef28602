//! Certifies a layer of TWKB blobs, or names the first blob that is wrong, and where.
//!
//! The command line is parsed first (`words`). Then the file is opened, and `run` reads it whole, checks its bytes and writes
//! the text. `run` is generic in its streams (`streams`), so its contract is about the bytes that came in and went out; here it
//! runs on the file and on standard output. The first fault ends the program, with a line on standard error and a status
//! (`status`).
#![tactic(auto)]

ghost use Rattle.std.specs.Prelude.{◌≡◌};
ghost use Rattle.twkb_tool.specs.Status.{status_of_host, status_of_usage};
ghost use Rattle.twkb_tool.specs.Words.{HoldsWindows};

pub mod judge;
pub mod laws;
pub mod request;
pub mod run;
pub mod status;
pub mod streams;
#[cfg(test)]
mod tests;
pub mod text;
pub mod words;

use request::Line;
use run::{MAX_FILE, run};
use status::{HostFault, host_status, status_of, usage_status};
use std::fs::File;
use std::process::ExitCode;
use std::{env, io};
use streams::io::{FromReader, ToWriter};
use words::{Usage, request_of};

fn main(rt: HostRuntime) -> ExitCode {
    ExitCode::from(whole_status(&rt))
}

/// Runs the words' request, and gives the program's status.
fn whole_status(rt: &HostRuntime) -> u8 {
    let Ok(words) = fetched_words(rt) else {
        return stopped(rt, HostFault::Words);
    };
    match request_of(rt.alloc(), words.as_slice()) {
        Ok(line) => run_line(rt, &line),
        Err(usage) => refused(rt, &usage),
    }
}

fn fetched_words(rt: &HostRuntime) -> io::Result<Vec<String>> {
    let words = env::args(rt)?.collect(rt.alloc())?;
    Ok(words)
}

/// Runs a line, and gives the program's status.
fn run_line(rt: &HostRuntime, line: &Line) -> u8
    requires { HoldsWindows line.now.request }
{
    let Ok(file) = File::open(rt, line.path.as_str()) else {
        return stopped(rt, HostFault::File);
    };
    let mut source = FromReader::new(file);
    let mut sink = ToWriter::new(io::writer(rt));
    let outcome = run(rt.alloc(), &mut source, &mut sink, &line.request, MAX_FILE);
    if let Err(fault) = &outcome {
        let _ = eprintln!(rt; "twkb_tool: {fault}");
    }
    status_of(&outcome)
}

// A message that can't be written to standard error is lost.

/// Says that the words can't be read or that the file can't be opened, and gives the program's status.
fn stopped(rt: &impl Eprint, fault: HostFault) -> u8
    ensures { result ≡ status_of_host fault }
{
    let _ = eprintln!(rt; "twkb_tool: {fault}");
    host_status(fault)
}

/// Says why the words ask for nothing, and gives the program's status.
fn refused(rt: &impl Eprint, usage: &Usage) -> u8
    ensures { result ≡ status_of_usage usage.now }
{
    let _ = match usage {
        Usage::Words(Some(error)) => eprint!(rt; "{error}"),
        Usage::Words(None) => Ok(()),
        _ => eprintln!(rt; "twkb_tool: {usage}"),
    };
    usage_status(usage)
}
