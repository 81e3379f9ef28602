//! Allocations of a run that are refused, each in turn. The allocations of reading words go through `clap`, which takes only
//! `Global`: `tests/refuse_allocations.py` refuses them to the built program.
ghost use Rattle.twkb_tool.specs.Words.{HoldsWindows};

use super::{TWO_BLOBS, TWO_WINDOWS, TWO_WINDOWS_TEXT, equal, scan_for};
use crate::judge::Verdict;
use crate::request::Request;
use crate::run::{RunFault, run_in};
use crate::status::status_of;
use crate::streams::memory::{MemSink, MemSource};
use refusing::Refusing;
use std::alloc::{Allocator, Global};
use std::process::Abort;
use std::test::Fail;

/// A multipoint of seventeen points, whose ids rise.
const SEVENTEEN_IDS: &[u8] =
    b"\x04\x04\x11\x00\x02\x04\x06\x08\x0A\x0C\x0E\x10\x12\x14\x16\x18\x1A\x1C\x1E\x20\
\x00\x00\x00\x00\x00\x00\x00\x00\x00\x00\x00\x00\x00\x00\x00\x00\x00\
\x00\x00\x00\x00\x00\x00\x00\x00\x00\x00\x00\x00\x00\x00\x00\x00\x00";

/// `SEVENTEEN_IDS`, but the last id is the least, so that it takes memory to see that the ids differ.
const FALLING_IDS: &[u8] =
    b"\x04\x04\x11\x00\x02\x04\x06\x08\x0A\x0C\x0E\x10\x12\x14\x16\x18\x1A\x1C\x1E\x01\
\x00\x00\x00\x00\x00\x00\x00\x00\x00\x00\x00\x00\x00\x00\x00\x00\x00\
\x00\x00\x00\x00\x00\x00\x00\x00\x00\x00\x00\x00\x00\x00\x00\x00\x00";

/// A point whose X and Y have the precision -1.
const COARSE_POINT: &[u8] = b"\x11\x00\xB6\x40\x00";

/// Runs once with all memory from an allocator, and returns whether the answer was that memory ran out.
fn runs_out<A: Allocator>(
    rt: &impl Abort,
    alloc: Global,
    memory: &A,
    bytes: &[u8],
    request: &Request,
    text: &str,
) -> Result<bool, Fail>
    requires { HoldsWindows request.now }
{
    let mut source = MemSource::new(bytes, 20, None);
    let mut sink = MemSink::new(alloc, 100, 100, None)?;
    match run_in(memory, &mut source, &mut sink, request, 100) {
        Ok(verdict) => {
            equal(rt, verdict, Verdict::Yes);
            equal(rt, sink.bytes(), text.as_bytes());
            Ok(false)
        }
        Err(fault) => {
            equal(rt, fault, RunFault::Memory);
            equal(rt, status_of(&Err(fault)), 3);
            assert!(rt; sink.bytes().is_empty());
            Ok(true)
        }
    }
}

/// Refuses each allocation of a run in turn, repeats the run after each refusal, and returns how many allocations there were.
fn refusals(
    rt: &impl Abort,
    alloc: Global,
    bytes: &[u8],
    request: &Request,
    text: &str,
) -> Result<u64, Fail>
    requires { HoldsWindows request.now }
{
    for call in 0..100u64 {
        let memory = Refusing::new(alloc, call);
        let is_out = runs_out(rt, alloc, &memory, bytes, request, text)?;
        equal(rt, is_out, memory.has_refused());
        if !is_out {
            return Ok(call);
        }
        // The allocator grants the next calls.
        assert!(rt; !runs_out(rt, alloc, &memory, bytes, request, text)?);
    }
    panic!(rt; "a run takes memory without end");
}

/// Asserts that `refusals` counts at least this many.
fn refuses_each(
    rt: &impl Abort,
    alloc: Global,
    bytes: &[u8],
    request: &Request,
    text: &str,
    least: u64,
) -> Result<(), Fail>
    requires { HoldsWindows request.now }
{
    let count = refusals(rt, alloc, bytes, request, text)?;
    assert!(rt; least <= count, "{count}");
    Ok(())
}

#[test]
fn each_allocation_of_a_check_is_refused(rt: HostRuntime) -> Result<(), Fail> {
    let text = "ok blobs=1 vertices=17\n";
    // There are allocations for the bytes and the text, and for ids that fall.
    refuses_each(&rt, rt.alloc(), SEVENTEEN_IDS, &Request::Check, text, 2)?;
    refuses_each(&rt, rt.alloc(), FALLING_IDS, &Request::Check, text, 3)
}

#[test]
fn each_allocation_of_a_tight_check_is_refused(rt: HostRuntime) -> Result<(), Fail> {
    let text = "ok blobs=1 vertices=17\n";
    // There are allocations for the bytes, the ids and the text.
    refuses_each(
        &rt,
        rt.alloc(),
        SEVENTEEN_IDS,
        &Request::CheckTight,
        text,
        3,
    )
}

#[test]
fn each_allocation_of_a_list_is_refused(rt: HostRuntime) -> Result<(), Fail> {
    let text = "blob=0 offset=0 bytes=5 type=point precision=-1 vertices=1 size=no box=no\n";
    // There are allocations for the bytes, the rows and the text.
    refuses_each(&rt, rt.alloc(), COARSE_POINT, &Request::List, text, 3)
}

#[test]
fn each_allocation_of_a_scan_is_refused(rt: HostRuntime) -> Result<(), Fail> {
    let request = scan_for(&rt, rt.alloc(), &TWO_WINDOWS)?;
    // There are allocations for the bytes, the room, the directory and the text.
    refuses_each(&rt, rt.alloc(), &TWO_BLOBS, &request, TWO_WINDOWS_TEXT, 4)
}

#[test]
fn each_allocation_of_a_sink_is_refused(rt: HostRuntime) -> Result<(), Fail> {
    let memory = Refusing::new(rt.alloc(), 0);
    assert!(rt; MemSink::new(&memory, 9, 1, None).is_err());
    assert!(rt; memory.has_refused());
    assert!(rt; MemSink::new(&memory, 9, 1, None).is_ok());
    Ok(())
}
