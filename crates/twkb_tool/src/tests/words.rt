//! The requests that words ask for, and the words that are refused.
use super::equal;
use crate::request::Request;
use crate::status::{HostFault, host_status, usage_status};
use crate::words::{Usage, request_of};
use clap::error::ErrorKind;
use std::alloc::Global;
use std::fmt::Display;
use std::process::Abort;
use std::test::Fail;
use twkb_layer::{BadWindow, Span, Window};

const UNIT: i128 = 10_000_000;

const SQUARE: &str = "x=0..1,y=0..1";

/// Words that ask to scan a file for 64 windows.
fn sixty_four_windows() -> [&'static str; 67] {
    let mut words = [SQUARE; 67];
    words[0] = "twkb_tool";
    words[1] = "scan";
    words[2] = "a.twkb";
    words
}

/// Words that ask to scan a file for 65 windows.
fn sixty_five_windows() -> [&'static str; 68] {
    let mut words = [SQUARE; 68];
    words[0] = "twkb_tool";
    words[1] = "scan";
    words[2] = "a.twkb";
    words
}

/// The name of a request.
fn name_of(request: &Request) -> &'static str {
    match request {
        Request::Check => "check",
        Request::CheckTight => "check, tight",
        Request::List => "list",
        Request::Scan(_) => "scan",
    }
}

/// Demands that words ask for the request of this name, at this path.
fn assert_asks(
    rt: &impl Abort,
    alloc: Global,
    words: &[&str],
    name: &str,
    path: &str,
) -> Result<(), Fail> {
    let line = request_of(alloc, words)?;
    equal(rt, name_of(&line.request), name);
    equal(rt, line.path.as_str(), path);
    Ok(())
}

#[test]
fn check_takes_a_file(rt: HostRuntime) -> Result<(), Fail> {
    let words = ["twkb_tool", "check", "a.twkb"];
    assert_asks(&rt, rt.alloc(), &words, "check", "a.twkb")
}

#[test]
fn check_takes_a_flag_on_either_side(rt: HostRuntime) -> Result<(), Fail> {
    let before = ["twkb_tool", "check", "--tight", "a.twkb"];
    assert_asks(&rt, rt.alloc(), &before, "check, tight", "a.twkb")?;
    let behind = ["twkb_tool", "check", "a.twkb", "--tight"];
    assert_asks(&rt, rt.alloc(), &behind, "check, tight", "a.twkb")
}

#[test]
fn list_takes_a_file(rt: HostRuntime) -> Result<(), Fail> {
    let words = ["twkb_tool", "list", "a.twkb"];
    assert_asks(&rt, rt.alloc(), &words, "list", "a.twkb")
}

/// Demands that words ask to scan `a.twkb` for these windows.
fn assert_scans(
    rt: &impl Abort,
    alloc: Global,
    words: &[&str],
    wanted: &[Window],
) -> Result<(), Fail> {
    let line = request_of(alloc, words)?;
    equal(rt, line.path.as_str(), "a.twkb");
    match &line.request {
        Request::Scan(windows) => equal(rt, windows.as_slice(), wanted),
        _ => assert!(rt; false),
    }
    Ok(())
}

#[test]
fn scan_takes_a_file_and_windows(rt: HostRuntime) -> Result<(), Fail> {
    let small = "x=-0.5..0.0000001,y=1..1";
    let tall = "x=0..1,y=0..1,z=-1..2,m=3..3";
    let a = Window::new(
        Span {
            lo: -5_000_000,
            hi: 1,
        },
        Span { lo: UNIT, hi: UNIT },
    );
    let unit = Span { lo: 0, hi: UNIT };
    let b = Window::new(unit, unit)
        .with_z(Span {
            lo: -UNIT,
            hi: 2 * UNIT,
        })
        .with_m(Span {
            lo: 3 * UNIT,
            hi: 3 * UNIT,
        });
    assert_scans(
        &rt,
        rt.alloc(),
        &["twkb_tool", "scan", "a.twkb", small],
        &[a],
    )?;
    assert_scans(
        &rt,
        rt.alloc(),
        &["twkb_tool", "scan", "a.twkb", small, tall],
        &[a, b],
    )?;
    assert_scans(
        &rt,
        rt.alloc(),
        &["twkb_tool", "scan", "a.twkb", tall, small, tall],
        &[b, a, b],
    )?;
    assert_scans(
        &rt,
        rt.alloc(),
        &["twkb_tool", "scan", "--", "a.twkb", small],
        &[a],
    )
}

#[test]
fn sixty_four_windows_are_taken(rt: HostRuntime) -> Result<(), Fail> {
    let unit = Span { lo: 0, hi: UNIT };
    assert_scans(
        &rt,
        rt.alloc(),
        &sixty_four_windows(),
        &[Window::new(unit, unit); 64],
    )
}

/// The reason why words ask for nothing, or `None` if they ask for something.
fn usage_of(alloc: Global, words: &[&str]) -> Option<Usage> {
    request_of(alloc, words).err()
}

/// The number and the reason of the window that words are refused for.
fn bad_window(alloc: Global, words: &[&str]) -> Option<(usize, BadWindow)> {
    match usage_of(alloc, words) {
        Some(Usage::Window { number, why }) => Some((number, why)),
        _ => None,
    }
}

/// Demands that words are refused for the window of this number, and for this reason.
fn assert_bad_window(
    rt: &impl Abort,
    alloc: Global,
    words: &[&str],
    number: usize,
    why: BadWindow,
) {
    let got = (bad_window(alloc, words), words);
    equal(rt, got, (Some((number, why)), words));
}

/// Words with three windows, the number of the first that can't be read, and why.
#[rattlefmt::skip]
const UNREADABLE: [(&[&str], usize, BadWindow); 5] = [
    (&["twkb_tool", "scan", "a.twkb", "x=1..0,y=0..0", SQUARE, SQUARE], 1, BadWindow::Order),
    (&["twkb_tool", "scan", "a.twkb", "x=1.,y=0..0", SQUARE, SQUARE], 1, BadWindow::Form),
    (&["twkb_tool", "scan", "a.twkb", SQUARE, "x=0..0,y=0.1..0", ""], 2, BadWindow::Order),
    (&["twkb_tool", "scan", "a.twkb", SQUARE, "", "x=1..0,y=0..0"], 2, BadWindow::Form),
    (&["twkb_tool", "scan", "a.twkb", SQUARE, SQUARE, "x=0..1,y=0..1,m=0..1,z=0..1"], 3, BadWindow::Form),
];

#[test]
fn the_first_unreadable_window_is_named(rt: HostRuntime) {
    for (words, number, why) in &UNREADABLE {
        assert_bad_window(&rt, rt.alloc(), words, *number, *why);
    }
}

#[test]
fn many_windows_are_counted_before_they_are_read(rt: HostRuntime) {
    let mut words = sixty_five_windows();
    assert!(rt; matches!(usage_of(rt.alloc(), &words), Some(Usage::TooMany)));
    words[4] = "x=1..0,y=0..0";
    assert!(rt; matches!(usage_of(rt.alloc(), &words), Some(Usage::TooMany)));
}

#[test]
fn each_of_many_windows_is_read(rt: HostRuntime) {
    let mut words = sixty_four_windows();
    words[66] = "x";
    assert_bad_window(&rt, rt.alloc(), &words, 64, BadWindow::Form);
    words[4] = "x=1..0,y=0..0";
    assert_bad_window(&rt, rt.alloc(), &words, 2, BadWindow::Order);
}

/// For which kind of error `clap` refuses words.
fn kind_of(alloc: Global, words: &[&str]) -> Option<ErrorKind> {
    match usage_of(alloc, words) {
        Some(Usage::Words(Some(error))) => Some(error.kind()),
        _ => None,
    }
}

/// Demands that `clap` refuses words for this kind of error.
fn assert_kind(rt: &impl Abort, alloc: Global, words: &[&str], kind: ErrorKind) {
    assert!(rt; kind_of(alloc, words) == Some(kind), "{words:?}");
}

/// Words, and the kind of error that `clap` refuses them for.
const OTHER_WORDS: [(&[&str], ErrorKind); 25] = [
    (&[], ErrorKind::MissingSubcommand),
    (&["twkb_tool"], ErrorKind::MissingSubcommand),
    (
        &["twkb_tool", "sum", "a.twkb"],
        ErrorKind::InvalidSubcommand,
    ),
    (
        &["twkb_tool", "Check", "a.twkb"],
        ErrorKind::InvalidSubcommand,
    ),
    (&["twkb_tool", "check"], ErrorKind::MissingRequiredArgument),
    (
        &["twkb_tool", "check", "a.twkb", "b.twkb"],
        ErrorKind::UnknownArgument,
    ),
    (
        &["twkb_tool", "check", "--loud", "a.twkb"],
        ErrorKind::UnknownArgument,
    ),
    (
        &["twkb_tool", "check", "-a.twkb"],
        ErrorKind::UnknownArgument,
    ),
    (
        &["twkb_tool", "check", "--tight"],
        ErrorKind::MissingRequiredArgument,
    ),
    (
        &["twkb_tool", "check", "--tight", "--tight", "a.twkb"],
        ErrorKind::ArgumentConflict,
    ),
    (
        &["twkb_tool", "--tight", "check", "a.twkb"],
        ErrorKind::UnknownArgument,
    ),
    (
        &["twkb_tool", "list", "--tight", "a.twkb"],
        ErrorKind::UnknownArgument,
    ),
    (
        &["twkb_tool", "scan", "a.twkb", SQUARE, "--tight"],
        ErrorKind::UnknownArgument,
    ),
    (&["twkb_tool", "list"], ErrorKind::MissingRequiredArgument),
    (
        &["twkb_tool", "list", "a.twkb", SQUARE],
        ErrorKind::UnknownArgument,
    ),
    (&["twkb_tool", "scan"], ErrorKind::MissingRequiredArgument),
    (
        &["twkb_tool", "scan", "a.twkb"],
        ErrorKind::MissingRequiredArgument,
    ),
    (
        &["twkb_tool", "scan", SQUARE],
        ErrorKind::MissingRequiredArgument,
    ),
    (
        &["twkb_tool", "scan", "a.twkb", "-x=0..1,y=0..1"],
        ErrorKind::UnknownArgument,
    ),
    (
        &["twkb_tool", "scan", "a.twkb", SQUARE, "--x=0..1,y=0..1"],
        ErrorKind::UnknownArgument,
    ),
    (&["twkb_tool", "--help"], ErrorKind::DisplayHelp),
    (&["twkb_tool", "help", "scan"], ErrorKind::DisplayHelp),
    (&["twkb_tool", "list", "-h"], ErrorKind::DisplayHelp),
    (
        &["twkb_tool", "scan", "a.twkb", "x=1..0,y=0..0", "--help"],
        ErrorKind::DisplayHelp,
    ),
    (&["twkb_tool", "--version"], ErrorKind::UnknownArgument),
];

#[test]
fn other_words_are_refused(rt: HostRuntime) {
    for (words, kind) in &OTHER_WORDS {
        assert_kind(&rt, rt.alloc(), words, *kind);
    }
}

/// Words, the name of the request that they ask for, and its path.
const PATHS: [(&[&str], &str, &str); 5] = [
    (&["twkb_tool", "check", "--", "-a.twkb"], "check", "-a.twkb"),
    (&["twkb_tool", "check", "-"], "check", "-"),
    (&["twkb_tool", "check", "help"], "check", "help"),
    (&["twkb_tool", "list", "check"], "list", "check"),
    (&["", "list", "Küste 1.twkb"], "list", "Küste 1.twkb"),
];

#[test]
fn a_path_may_be_any_word(rt: HostRuntime) -> Result<(), Fail> {
    for (words, name, path) in &PATHS {
        assert_asks(&rt, rt.alloc(), words, name, path)?;
    }
    Ok(())
}

#[test]
fn usages_have_their_statuses(rt: HostRuntime) {
    let usage = request_of(rt.alloc(), &["twkb_tool", "check"]).err();
    assert!(rt; matches!(&usage, Some(usage) if usage_status(usage) == 2));
    let window = Usage::Window {
        number: 1,
        why: BadWindow::Form,
    };
    equal(&rt, usage_status(&Usage::Words(None)), 2);
    equal(&rt, usage_status(&Usage::TooMany), 2);
    equal(&rt, usage_status(&window), 2);
    equal(&rt, usage_status(&Usage::Memory), 3);
    equal(&rt, host_status(HostFault::Words), 3);
    equal(&rt, host_status(HostFault::File), 3);
}

/// Demands that a fault has this text.
fn assert_says<E: Display + Drop>(
    rt: &impl Abort,
    alloc: Global,
    fault: E,
    text: &str,
) -> Result<(), Fail> {
    equal(rt, fault.to_string(alloc)?.as_str(), text);
    Ok(())
}

#[test]
fn usages_have_their_texts(rt: HostRuntime) -> Result<(), Fail> {
    let form = Usage::Window {
        number: 1,
        why: BadWindow::Form,
    };
    let text = "window 1: not of the form x=A..B,y=C..D[,z=E..F][,m=G..H]";
    assert_says(&rt, rt.alloc(), form, text)?;
    let order = Usage::Window {
        number: 64,
        why: BadWindow::Order,
    };
    let text = "window 64: lower bound above upper bound";
    assert_says(&rt, rt.alloc(), order, text)?;
    assert_says(&rt, rt.alloc(), Usage::TooMany, "more than 64 windows")?;
    assert_says(&rt, rt.alloc(), Usage::Memory, "out of memory")?;
    assert_says(&rt, rt.alloc(), HostFault::Words, "cannot read words")?;
    assert_says(&rt, rt.alloc(), HostFault::File, "cannot open file")
}
