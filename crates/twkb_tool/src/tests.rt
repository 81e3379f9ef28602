//! Tests of what no contract says: that runs succeed on worked files, each refused allocation, and reads and writes that fail.
ghost use Rattle.std.specs.Prelude.{◌<◌, IfOk};
ghost use Rattle.twkb_tool.specs.Words.{HoldsWindows};

use crate::judge::Verdict;
use crate::request::Request;
use crate::run::run;
use crate::status::status_of;
use crate::streams::memory::{MemSink, MemSource};
use std::alloc::Global;
use std::fmt::Debug;
use std::process::Abort;
use std::test::Fail;
use twkb_layer::Window;

mod memory;
mod runs;
mod streams;
mod words;
mod worked;

// Asserts that a call answers as wanted. A test that calls this is proved sooner than one that compares in its own body.
fn equal<T: PartialEq + Debug + Drop>(rt: &impl Abort, got: T, wanted: T) {
    assert_eq!(rt; got, wanted);
}

/// The boxed line, and a point at (10 10) with a box and no size.
const TWO_BLOBS: [u8; 20] = [
    0x02, 0x03, 0x09, 0x02, 0x08, 0x02, 0x08, 0x02, 0x02, 0x02, 0x08, 0x08, 0x01, 0x01, 0x14, 0x00,
    0x14, 0x00, 0x14, 0x14,
];

/// Windows for `TWO_BLOBS`, of which the first has no hit, and the text that a scan for them prints.
const TWO_WINDOWS: [&str; 2] = ["x=6..9,y=0..9", "x=10..10,y=10..10"];

const TWO_WINDOWS_TEXT: &str = "hits=0 read=0 of=20\nhit blob=1 offset=12\nhits=1 read=8 of=20\n";

/// The request to scan for the windows of these 1 to 64 texts.
fn scan_for(rt: &impl Abort, alloc: Global, texts: &[&str]) -> Result<Request, Fail>
    ensures { IfOk result HoldsWindows }
{
    let mut windows = Vec::new(alloc);
    for text in texts {
        match Window::parse(text) {
            Ok(window) => windows.push(window)?,
            Err(_) => panic!(rt; "no window: {text}"),
        }
    }
    assert!(rt; 1 <= windows.len() && windows.len() <= 64);
    Ok(Request::Scan(windows))
}

/// Runs a request with streams that move `step` bytes at a call, and compares text, verdict and status.
fn answers(
    rt: &impl Abort,
    alloc: Global,
    bytes: &[u8],
    step: usize,
    request: &Request,
    text: &str,
) -> Result<(), Fail>
    requires step { 0 < step }
    requires windows { HoldsWindows request.now }
{
    let mut source = MemSource::new(bytes, step, None);
    let mut sink = MemSink::new(alloc, 1000, step, None)?;
    let outcome = run(alloc, &mut source, &mut sink, request, 1000);
    let is_certified = !text.starts_with("no ");
    let verdict = if is_certified {
        Verdict::Yes
    } else {
        Verdict::No
    };
    equal(rt, sink.bytes(), text.as_bytes());
    equal(rt, outcome, Ok(verdict));
    equal(rt, status_of(&outcome), u8::from(!is_certified));
    Ok(())
}
