//! The exit status of the program, by what it did. Used by `main`.
ghost use Rattle.std.specs.Prelude.{◌≡◌};
ghost use Rattle.twkb_tool.specs.Status.{status_of_host, status_of_run, status_of_usage};

use crate::judge::Verdict;
use crate::run::RunFault;
use crate::words::Usage;
use thiserror::Error;

/// A fault before a run: the command line can't be read, or the file can't be opened.
#[derive(Clone, Copy, Debug, PartialEq, Eq, Error)]
pub enum HostFault {
    /// The words can't be fetched.
    #[error("cannot read words")]
    Words,
    /// The file can't be opened.
    #[error("cannot open file")]
    File,
}

/// The status of a run: 0 for yes, 1 for no, 3 if it stopped.
pub fn status_of(outcome: &Result<Verdict, RunFault>) -> u8
    ensures { result ≡ status_of_run outcome.now }
{
    match outcome {
        Ok(Verdict::Yes) => 0,
        Ok(Verdict::No) => 1,
        Err(_) => 3,
    }
}

/// The status of a bad command line: 2, or 3 if memory ran out.
pub fn usage_status(usage: &Usage) -> u8
    ensures { result ≡ status_of_usage usage.now }
{
    match usage {
        Usage::Words(_) | Usage::TooMany | Usage::Window { .. } => 2,
        Usage::Memory => 3,
    }
}

/// The status after a fault before a run: 3.
pub fn host_status(fault: HostFault) -> u8
    ensures { result ≡ status_of_host fault }
{
    match fault {
        HostFault::Words | HostFault::File => 3,
    }
}
