//! The command as it is defined for `clap`.
ghost use Rattle.std.specs.Prelude.{◌≡◌, false, IfOk};
ghost use Rattle.clap.specs.Words.{app_of, rule_of};
ghost use Rattle.clap.specs.declared.builder.command.Command.TheViews.{out-Command};
ghost use Rattle.twkb_tool.specs.Words.{file_rule, tight_rule, window_rule, bare_app, file_app, check_app, scan_app, tool_app};

use clap::{Arg, ArgAction, Command};
use std::alloc::{AllocError, Global};

/// `twkb_tool check [--tight] FILE`, `twkb_tool list FILE` and `twkb_tool scan FILE WINDOW..`.
#[tactic(auto, unfolding(crate::specs::Words::tool_app))]
pub fn tool_command<'a>(alloc: Global) -> Result<Command<'a>, AllocError>
    ensures { IfOk result (λ c. app_of c ≡ tool_app) }
{
    bare_command(alloc)
        .subcommand(check_command(alloc)?)?
        .subcommand(file_command(
            alloc,
            "list",
            "List every blob: offset, length, type, precision, vertex count",
        )?)?
        .subcommand(scan_command(alloc)?)
}

/// The command line without its subcommands.
fn bare_command<'a>(alloc: Global) -> Command<'a>
    ensures app { app_of result ≡ bare_app }
    ensures local { (out-Command result).has_globals ≡ false }
{
    Command::new(alloc, "twkb_tool")
        .about("Check, list and scan layers: files of TWKB geometries")
        .subcommand_required(true)
}

/// A subcommand of this name whose one argument is a file.
fn file_command<'a>(alloc: Global, name: &'a str, about: &'a str) -> Result<Command<'a>, AllocError>
    ensures app { IfOk result (λ c. app_of c ≡ file_app name.entry.now) }
    ensures local { IfOk result (λ c. (out-Command c).has_globals ≡ false) }
{
    Command::new(alloc, name).about(about).arg(file_arg(alloc))
}

/// The subcommand `check`.
fn check_command<'a>(alloc: Global) -> Result<Command<'a>, AllocError>
    ensures app { IfOk result (λ c. app_of c ≡ check_app) }
    ensures local { IfOk result (λ c. (out-Command c).has_globals ≡ false) }
{
    let about = "Certify a layer, or name the first blob that is wrong, and where";
    file_command(alloc, "check", about)?.arg(tight_arg(alloc))
}

/// The subcommand `scan`.
fn scan_command<'a>(alloc: Global) -> Result<Command<'a>, AllocError>
    ensures app { IfOk result (λ c. app_of c ≡ scan_app) }
    ensures local { IfOk result (λ c. (out-Command c).has_globals ≡ false) }
{
    let about = "Find the blobs that have a vertex inside each window";
    file_command(alloc, "scan", about)?.arg(window_arg(alloc))
}

/// The argument for the file.
fn file_arg<'a>(alloc: Global) -> Arg<'a>
    ensures rule { rule_of result ≡ file_rule }
    ensures local { result.global ≡ false }
{
    Arg::new(alloc, "FILE")
        .required(true)
        .help("A file of TWKB geometries, one after another")
}

/// The option `--tight`.
fn tight_arg<'a>(alloc: Global) -> Arg<'a>
    ensures rule { rule_of result ≡ tight_rule }
    ensures local { result.global ≡ false }
{
    Arg::new(alloc, "tight")
        .long("tight")
        .action(ArgAction::SetTrue)
        .help("Also refuse boxes that are larger than they have to be")
}

/// The argument for windows. It takes any number of values, since `scan_of` refuses too many windows.
fn window_arg<'a>(alloc: Global) -> Arg<'a>
    ensures rule { rule_of result ≡ window_rule }
    ensures local { result.global ≡ false }
{
    Arg::new(alloc, "WINDOW")
        .required(true)
        .num_args(1..)
        .help("x=A..B,y=C..D[,z=E..F][,m=G..H], both ends included")
}
