//! Sources and sinks that fail, that have no end, and that are over real files.
ghost use Rattle.std.specs.Prelude.{◌≡◌, ◌≤◌, false};

use super::{TWO_BLOBS, TWO_WINDOWS, TWO_WINDOWS_TEXT, equal, scan_for};
use crate::judge::Verdict;
use crate::request::Request;
use crate::run::{MAX_FILE, RunFault, run};
use crate::status::status_of;
use crate::streams::io::{FromReader, ToWriter};
use crate::streams::memory::{MemSink, MemSource};
use crate::streams::{Sink, Source, SourceFailed};
use std::alloc::Global;
use std::fs::File;
use std::io::{Read, Write};
use std::process::Abort;
use std::test::Fail;
use std::{env, fs, io};

const POINT: [u8; 5] = [0x01, 0x02, 0x02, 0x02, 0x04];

const TEXT: &str = "ok blobs=1 vertices=1\n";

/// Checks what a source gives, and demands that the run stops for this fault, with its status.
fn check_stops<S: Source, K: Sink>(
    rt: &impl Abort,
    alloc: Global,
    source: &mut S,
    sink: &mut K,
    limit: usize,
    fault: RunFault,
)
    requires limit { limit ≤ MAX_FILE }
    requires source { (S.state source.old).failed ≡ false }
    requires sink { (K.state sink.old).failed ≡ false }
{
    let outcome = run(alloc, source, sink, &Request::Check, limit);
    equal(rt, outcome, Err(fault));
    equal(rt, status_of(&outcome), 3);
}

#[test]
fn a_source_fails_at_each_call(rt: HostRuntime) -> Result<(), Fail> {
    for k in 1..22 {
        let mut source = MemSource::new(&TWO_BLOBS, 1, Some(k));
        let mut sink = MemSink::new(rt.alloc(), 100, 1, None)?;
        let fault = RunFault::Read;
        check_stops(&rt, rt.alloc(), &mut source, &mut sink, 100, fault);
        equal(&rt, source.moved(), k as u64 - 1);
        equal(&rt, sink.moved(), 0);
        assert!(rt; sink.bytes().is_empty());
    }
    Ok(())
}

#[test]
fn a_sink_fails_at_each_call_up_to_the_flush(rt: HostRuntime) -> Result<(), Fail> {
    for k in 1..TWO_WINDOWS_TEXT.len() + 2 {
        let request = scan_for(&rt, rt.alloc(), &TWO_WINDOWS)?;
        let mut source = MemSource::new(&TWO_BLOBS, 9, None);
        let mut sink = MemSink::new(rt.alloc(), 100, 1, Some(k))?;
        let outcome = run(rt.alloc(), &mut source, &mut sink, &request, 100);
        equal(&rt, outcome, Err(RunFault::Write { done: k - 1 }));
        equal(&rt, status_of(&outcome), 3);
        equal(&rt, sink.bytes(), &TWO_WINDOWS_TEXT.as_bytes()[..k - 1]);
        equal(&rt, sink.moved(), k as u64 - 1);
    }
    Ok(())
}

#[test]
fn a_flush_alone_fails(rt: HostRuntime) -> Result<(), Fail> {
    let mut source = MemSource::new(&POINT, 9, None);
    let mut sink = MemSink::new(rt.alloc(), 100, 100, Some(2))?;
    let fault = RunFault::Write { done: 22 };
    check_stops(&rt, rt.alloc(), &mut source, &mut sink, 100, fault);
    equal(&rt, sink.bytes(), TEXT.as_bytes());
    Ok(())
}

#[test]
fn a_sink_takes_three_bytes(rt: HostRuntime) -> Result<(), Fail> {
    let mut source = MemSource::new(&POINT, 9, None);
    let mut sink = MemSink::new(rt.alloc(), 3, 100, None)?;
    let fault = RunFault::Write { done: 3 };
    check_stops(&rt, rt.alloc(), &mut source, &mut sink, 100, fault);
    equal(&rt, sink.bytes(), b"ok ".as_slice());
    Ok(())
}

/// A source that fills every room and never ends.
#[derive(Drop)]
struct Endless {
    calls: usize,
    moved: u64,
}

impl Source for Endless {
    ghost use Rattle.std.specs.Prelude.{false, []};

    ghost state = { λ s. record { tells = false; rest = []; moved = s.moved; failed = false } };

    fn take(&mut self, room: &mut [u8]) -> Result<usize, SourceFailed> {
        for place in room.iter_mut() {
            *place = 1;
        }
        self.calls = self.calls.saturating_add(1);
        self.moved = self.moved.saturating_add(room.len() as u64);
        Ok(room.len())
    }

    fn moved(&self) -> u64 {
        self.moved
    }
}

#[test]
fn a_source_without_end_is_too_large(rt: HostRuntime) -> Result<(), Fail> {
    for limit in [0usize, 6, 100_000] {
        let mut source = Endless { calls: 0, moved: 0 };
        let mut sink = MemSink::new(rt.alloc(), 100, 1, None)?;
        let fault = RunFault::TooLarge;
        check_stops(&rt, rt.alloc(), &mut source, &mut sink, limit, fault);
        assert!(rt; sink.bytes().is_empty());
        equal(&rt, source.moved(), limit as u64 + 1);
        assert!(rt; source.calls <= limit + 1);
    }
    Ok(())
}

#[test]
fn a_byte_past_the_limit_ends_the_reading(rt: HostRuntime) -> Result<(), Fail> {
    // Six bytes in one step or in six. The seventh call would fail.
    for step in [6usize, 1] {
        let mut source = MemSource::new(&[1; 6], step, Some(7));
        let mut sink = MemSink::new(rt.alloc(), 100, 1, None)?;
        let fault = RunFault::TooLarge;
        check_stops(&rt, rt.alloc(), &mut source, &mut sink, 5, fault);
        equal(&rt, source.moved(), 6);
        assert!(rt; sink.bytes().is_empty());
    }
    Ok(())
}

/// A reader that gives one byte at a call, and fails at one call; and a writer that takes none.
#[derive(Drop)]
struct Faulty {
    calls: usize,
    fail_at: usize,
    kind: io::ErrorKind,
}

impl Read for Faulty {
    fn read(&mut self, room: &mut [u8]) -> io::Result<usize> {
        self.calls = self.calls.saturating_add(1);
        if self.calls == self.fail_at {
            return Err(io::Error::from(self.kind));
        }
        if room.is_empty() || self.calls > 9 {
            return Ok(0);
        }
        room[0] = 1;
        Ok(1)
    }
}

impl Write for Faulty {
    fn write(&mut self, _piece: &[u8]) -> io::Result<usize> {
        Ok(0)
    }

    fn flush(&mut self) -> io::Result<()> {
        Ok(())
    }
}

#[test]
fn readers_and_writers_fail(rt: HostRuntime) -> Result<(), Fail> {
    for fail_at in 1..11usize {
        let mut source = FromReader::new(Faulty {
            calls: 0,
            fail_at,
            kind: io::ErrorKind::Interrupted,
        });
        let mut sink = MemSink::new(rt.alloc(), 100, 100, None)?;
        let fault = RunFault::Read;
        check_stops(&rt, rt.alloc(), &mut source, &mut sink, 100, fault);
        equal(&rt, source.moved(), fail_at as u64 - 1);
    }
    let mut source = MemSource::new(&POINT, 2, None);
    let mut sink = ToWriter::new(Faulty {
        calls: 0,
        fail_at: 0,
        kind: io::ErrorKind::Other,
    });
    let fault = RunFault::Write { done: 0 };
    check_stops(&rt, rt.alloc(), &mut source, &mut sink, 100, fault);
    equal(&rt, sink.moved(), 0);
    Ok(())
}

/// A writer that takes every byte, and fails when it is flushed.
#[derive(Drop)]
struct Unflushed;

impl Write for Unflushed {
    fn write(&mut self, piece: &[u8]) -> io::Result<usize> {
        Ok(piece.len())
    }

    fn flush(&mut self) -> io::Result<()> {
        Err(io::Error::from(io::ErrorKind::Other))
    }
}

#[test]
fn a_flush_of_a_writer_fails(rt: HostRuntime) {
    let mut source = MemSource::new(&POINT, 2, None);
    let mut sink = ToWriter::new(Unflushed);
    let fault = RunFault::Write { done: 22 };
    check_stops(&rt, rt.alloc(), &mut source, &mut sink, 100, fault);
    equal(&rt, sink.moved(), 22);
}

#[test]
fn a_run_goes_from_file_to_file(rt: HostRuntime) -> Result<(), Fail> {
    let folder = env::temp_dir(&rt)?;
    let layer = folder.join(rt.alloc(), "twkb_tool-test-layer.twkb")?;
    let answer = folder.join(rt.alloc(), "twkb_tool-test-answer")?;
    fs::write(&rt, &layer, &POINT)?;
    {
        let mut source = FromReader::new(File::open(&rt, &layer)?);
        let mut sink = ToWriter::new(File::create(&rt, &answer)?);
        let outcome = run(rt.alloc(), &mut source, &mut sink, &Request::Check, 100);
        equal(&rt, outcome, Ok(Verdict::Yes));
        equal(&rt, source.moved(), 5);
        equal(&rt, sink.moved(), 22);
    }
    let written = fs::read_to_string(&rt, &answer)?;
    fs::remove_file(&rt, &layer)?;
    fs::remove_file(&rt, &answer)?;
    equal(&rt, written.as_str(), TEXT);
    Ok(())
}
