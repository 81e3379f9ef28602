//! What a command line requests.
//!
//! `clap` parses the words as the module `command` says, and the functions here make a [`Line`] of what it found.
//! `specs/Words.antt` defines what all these functions return. Used by `main` and `status`.
ghost use Rattle.std.specs.List.{list_all};
ghost use Rattle.std.specs.Prelude.{◌≡◌, ◌≢◌, List, [], ◌∷◌, map, codes, true, IfOk, IfErr, OnOk, IsErrAnd, option_map, false, ◌++◌, length, vec_len};
ghost use Rattle.clap.specs.Words.{Text, fault_of, found_of, rows_of, subcommand_of, subcommand_rows_of, all_of, first_of};
ghost use Rattle.twkb_tool.specs.Words.{tool_app, AsksFor, HoldsWindows, IsLineOf, IsRefused, IsScanOf, Reads, IsRefusalOrMemory, Answers, is_value, IsGiven, AreWindows, IsBadText, IsWindow};
ghost use Rattle.twkb_head.specs.declared.boxes.Bounds.{Bounds};
ghost use Rattle.twkb_tool.specs.Devices.Words.{AreNoWindows, IsNoWindowMore};

mod command;

use crate::request::{Line, Request};
use clap::ArgMatches;
use clap::error::ErrorKind;
use command::tool_command;
use std::alloc::{AllocError, Global};
use std::convert::AsStr;
use thiserror::Error;
use twkb_layer::{BadWindow, Window};

/// The most windows of a scan.
pub const MAX_WINDOWS: usize = 64;

/// Why a command line requests nothing. The first of these that applies is returned.
#[derive(Debug, Drop, Error)]
pub enum Usage {
    /// `clap` refused the words, or they ask for help. `None` if they parsed and a required word is missing.
    #[error("the words are refused")]
    Words(Option<clap::Error>),
    /// There are more windows than a scan takes.
    #[error("more than {MAX_WINDOWS} windows")]
    TooMany,
    /// The window of this number, from 1, is the first that doesn't parse.
    #[error("window {number}: {why}")]
    Window { number: usize, why: BadWindow },
    /// Memory was refused.
    #[error("out of memory")]
    Memory,
}

/// The line that the words of a command line request. The first word is the program's name.
pub fn request_of<S: AsStr>(alloc: Global, words: &[S]) -> Result<Line, Usage>
    ensures refused { fault_of tool_app (map S.text words.now) ≢ []
        → IsErrAnd result (IsRefusalOrMemory (fault_of tool_app (map S.text words.now))) }
    ensures parsed { fault_of tool_app (map S.text words.now) ≡ []
        → Answers (subcommand_of tool_app (map S.text words.now)) result }
    ensures check { (program file : Text) → map S.text words.now ≡ program ∷ codes "check" ∷ file ∷ []
        → is_value file ≡ true → IsLineOf file Request.Check result }
    ensures tight { (program file : Text) → map S.text words.now ≡ program ∷ codes "check" ∷ codes "--tight" ∷ file ∷ []
        → is_value file ≡ true → IsLineOf file Request.CheckTight result }
    ensures tight_behind { (program file : Text)
        → map S.text words.now ≡ program ∷ codes "check" ∷ file ∷ codes "--tight" ∷ []
        → is_value file ≡ true → IsLineOf file Request.CheckTight result }
    ensures list { (program file : Text) → map S.text words.now ≡ program ∷ codes "list" ∷ file ∷ []
        → is_value file ≡ true → IsLineOf file Request.List result }
    ensures scan { (program file window : Text) (windows : List Text)
        → map S.text words.now ≡ program ∷ codes "scan" ∷ file ∷ window ∷ windows
        → is_value file ≡ true → list_all is_value (window ∷ windows) ≡ true
        → IsScanOf file (window ∷ windows) result }
    ensures windows { IfOk result (λ line. HoldsWindows line.request) }
{
    // The proof knows from here that the count of the words fits.
    let _count = words.len();
    line_by_clap(alloc, words)
}

/// The line that `clap`'s matches of the words make.
fn line_by_clap<S: AsStr>(alloc: Global, words: &[S]) -> Result<Line, Usage>
    ensures refused { fault_of tool_app (map S.text words.now) ≢ []
        → IsErrAnd result (IsRefusalOrMemory (fault_of tool_app (map S.text words.now))) }
    ensures parsed { fault_of tool_app (map S.text words.now) ≡ []
        → Answers (subcommand_of tool_app (map S.text words.now)) result }
    ensures windows { IfOk result (λ line. HoldsWindows line.request) }
{
    let matches = matches_of(alloc, words)?;
    match used(&matches) {
        Some((name, inner)) => line_of(alloc, name, inner),
        None => Err(Usage::Words(None)),
    }
}

/// The words as `clap` parses them, or why it refuses them.
fn matches_of<'a, S: AsStr>(alloc: Global, words: &'a [S]) -> Result<ArgMatches<'a>, Usage>
    ensures ok { IfOk result (λ m. subcommand_rows_of m ≡ subcommand_of tool_app (map S.text words.entry.now)) }
    ensures parsed { OnOk result (fault_of tool_app (map S.text words.entry.now) ≡ []) }
    ensures err { IfErr result (IsRefusalOrMemory (fault_of tool_app (map S.text words.entry.now))) }
{
    let command = match tool_command(alloc) {
        Ok(command) => command,
        Err(AllocError) => return Err(Usage::Memory),
    };
    match command.try_get_matches_from(words) {
        Ok(matches) => Ok(matches),
        Err(error) => {
            if error.kind() == ErrorKind::OutOfMemory {
                Err(Usage::Memory)
            } else {
                Err(Usage::Words(Some(error)))
            }
        }
    }
}

/// The line of a subcommand.
fn line_of(alloc: Global, name: &str, matches: &ArgMatches<'_>) -> Result<Line, Usage>
    ensures reads { Reads name.now (rows_of (found_of matches.now)) result }
    ensures windows { IfOk result (λ line. HoldsWindows line.request) }
{
    let Some(file) = value_in(matches, "FILE") else {
        return Err(Usage::Words(None));
    };
    let request = request_in(alloc, name, matches)?;
    match String::from_str(alloc, file) {
        Ok(path) => Ok(Line { path, request }),
        Err(AllocError) => Err(Usage::Memory),
    }
}

/// The request of a subcommand.
fn request_in(alloc: Global, name: &str, matches: &ArgMatches<'_>) -> Result<Request, Usage>
    ensures ok { IfOk result (AsksFor name.now (rows_of (found_of matches.now))) }
    ensures windows { IfOk result HoldsWindows }
    ensures err { IfErr result (IsRefused name.now (rows_of (found_of matches.now))) }
{
    match name {
        "check" => Ok(check_of(matches)),
        "list" => Ok(Request::List),
        "scan" => scan_of(alloc, matches),
        _ => Err(Usage::Words(None)),
    }
}

/// The request of `check`.
fn check_of(matches: &ArgMatches<'_>) -> Request
    ensures asks { AsksFor (codes "check") (rows_of (found_of matches.now)) result }
    ensures windows { HoldsWindows result }
{
    if is_given(matches, "tight") {
        Request::CheckTight
    } else {
        Request::Check
    }
}

/// The request of `scan`.
fn scan_of(alloc: Global, matches: &ArgMatches<'_>) -> Result<Request, Usage>
    ensures ok { IfOk result (AsksFor (codes "scan") (rows_of (found_of matches.now))) }
    ensures windows { IfOk result HoldsWindows }
    ensures err { IfErr result (IsRefused (codes "scan") (rows_of (found_of matches.now))) }
{
    let Some(texts) = values_in(matches, "WINDOW") else {
        return Err(Usage::Words(None));
    };
    if texts.is_empty() {
        return Err(Usage::Words(None));
    }
    if texts.len() > MAX_WINDOWS {
        return Err(Usage::TooMany);
    }
    let windows = windows_of(alloc, texts)?;
    Ok(Request::Scan(windows))
}

// ---- what `clap` found

/// The subcommand that was used, and its matches.
fn used<'m, 'a>(matches: &'m ArgMatches<'a>) -> Option<(&'a str, &'m ArgMatches<'a>)>
    ensures { option_map (λ p. (p.0.now, rows_of (found_of p.1.now))) result ≡ subcommand_rows_of matches.entry.now }
{
    matches.subcommand()
}

/// The first value of an argument.
#[tactic(auto, using(crate::proofs::WordLemmas::first_value_rows))]
fn value_in<'a>(matches: &ArgMatches<'a>, id: &str) -> Option<&'a str>
    ensures { option_map (λ s. s.now) result ≡ first_of id.now (rows_of (found_of matches.now)) }
{
    matches.get_str(id)
}

/// Whether a flag was given.
fn is_given(matches: &ArgMatches<'_>, id: &str) -> bool
    ensures given { result ≡ true → IsGiven id.now (rows_of (found_of matches.now)) }
    ensures missing { result ≡ false → IsGiven id.now (rows_of (found_of matches.now)) → ⊥ }
{
    matches!(value_in(matches, id), Some("true"))
}

/// All values of an argument.
#[tactic(auto, using(crate::proofs::WordLemmas::raw_values_rows))]
fn values_in<'m, 'a>(matches: &'m ArgMatches<'a>, id: &str) -> Option<&'m [&'a str]>
    ensures { option_map (λ s. map (λ v. v.now) s.now) result ≡ all_of id.now (rows_of (found_of matches.entry.now)) }
{
    matches.get_strs(id)
}

// ---- windows

/// Reads each text as a window, up to the first that is none.
fn windows_of(alloc: Global, texts: &[&str]) -> Result<Vec<Window>, Usage>
    ensures ok { IfOk result (λ windows. AreWindows (map (λ t. t.now) texts.now) windows.items) }
    ensures count { IfOk result (λ windows. vec_len windows ≡ length texts.now) }
    ensures err { IfErr result (AreNoWindows (map (λ t. t.now) texts.now)) }
{
    let mut windows = Vec::new(alloc);
    for (i, text) in texts.iter().enumerate() {
        push_window_of(&mut windows, i + 1, text)?;
    }
    Ok(windows)
}

/// Reads the text of this number as a window, and pushes it.
fn push_window_of(windows: &mut Vec<Window>, number: usize, text: &str) -> Result<(), Usage>
    ensures ok { OnOk result ((window : Bounds) × IsWindow text.now window
        × (windows.new.items ≡ windows.old.items ++ window ∷ [])) }
    ensures err { IfErr result (IsNoWindowMore number text.now) }
{
    match window_of(text) {
        Ok(window) => windows.push(window).map_err(|_| Usage::Memory),
        Err(why) => Err(Usage::Window { number, why }),
    }
}

/// The window of a text.
fn window_of(text: &str) -> Result<Window, BadWindow>
    ensures ok { IfOk result (IsWindow text.now) }
    ensures err { IfErr result (IsBadText text.now) }
{
    Window::parse(text)
}
