//! [`run`], a whole run from the bytes that come in to the text that goes out. Used by `judge`, `main`, `status` and `text`.
ghost use Rattle.std.specs.Prelude.{◌≡◌, ◌+◌, ◌<◌, ◌≤◌, [], take, false, IfOk, IfErr, OnOk, IsTrue, vec_len};
ghost use Rattle.twkb_tool.specs.Ran.{GivesAll, StopsReading, PutsAll, Ran};
ghost use Rattle.twkb_tool.specs.Devices.Ran.{AddsPiece, StopsPiece, StopsWriting};
ghost use Rattle.twkb_tool.specs.Words.{HoldsWindows};

use crate::judge::{Verdict, answer};
use crate::request::Request;
use crate::streams::{Sink, SinkFailed, Source, SourceFailed};
use std::alloc::{AllocError, Allocator, Global};
use thiserror::Error;

/// The most bytes of a file.
pub const MAX_FILE: usize = 268_435_456;

/// How many bytes are asked for at once.
const ROOM: usize = 65_536;

/// Why a run stopped.
#[derive(Clone, Copy, Debug, PartialEq, Eq, Error)]
pub enum RunFault {
    /// The source failed. Nothing was put.
    #[error("read failed")]
    Read,
    /// The source gave one byte more than the limit. Nothing was put.
    #[error("file too large")]
    TooLarge,
    /// Memory was refused. Nothing was put.
    #[error("out of memory")]
    Memory,
    /// The sink failed, after it had taken the first `done` bytes of the text.
    #[error("write failed after {done} bytes")]
    Write { done: usize },
}

/// Reads the source to its end, judges its bytes, and puts the text into the sink. All memory is taken before the first `put`.
pub fn run<S: Source, K: Sink>(
    alloc: Global,
    source: &mut S,
    sink: &mut K,
    request: &Request,
    limit: usize,
) -> Result<Verdict, RunFault>
    requires limit { limit ≤ MAX_FILE }
    requires windows { HoldsWindows request.now }
    requires source { (S.state source.old).failed ≡ false }
    requires sink { (K.state sink.old).failed ≡ false }
    ensures { Ran request.now limit (S.state source.old) (S.state source.new)
        (K.state sink.old) (K.state sink.new) result }
{
    run_in(&alloc, source, sink, request, limit)
}

/// [`run`] with all memory from any allocator.
pub fn run_in<A: Allocator, S: Source, K: Sink>(
    alloc: &A,
    source: &mut S,
    sink: &mut K,
    request: &Request,
    limit: usize,
) -> Result<Verdict, RunFault>
    requires limit { limit ≤ MAX_FILE }
    requires windows { HoldsWindows request.now }
    requires source { (S.state source.old).failed ≡ false }
    requires sink { (K.state sink.old).failed ≡ false }
    ensures { Ran request.now limit (S.state source.old) (S.state source.new)
        (K.state sink.old) (K.state sink.new) result }
{
    let bytes = read_all(alloc, source, limit)?;
    let (text, verdict) = match answer(alloc, request, bytes.as_slice()) {
        Ok(answer) => answer,
        Err(AllocError) => return Err(RunFault::Memory),
    };
    put_all(sink, text.as_slice())?;
    Ok(verdict)
}

/// Reads the source to its end. If it has a byte more than the limit, that is the fault `TooLarge`.
fn read_all<A: Allocator, S: Source>(
    alloc: A,
    source: &mut S,
    limit: usize,
) -> Result<Vec<u8, A>, RunFault>
    requires limit { limit ≤ MAX_FILE }
    requires source { (S.state source.old).failed ≡ false }
    ensures ok { IfOk result (λ bytes. GivesAll limit (S.state source.old) (S.state source.new) bytes.items) }
    ensures err { IfErr result (λ fault. StopsReading limit fault (S.state source.old) (S.state source.new)) }
{
    let mut bytes = Vec::new(alloc);
    let mut held = 0;
    // The proof knows from here that the count so far fits.
    let _moved = source.moved();
    while held <= limit {
        let n = take_piece(source, &mut bytes, held, limit + 1)?;
        if n == 0 {
            bytes.truncate(held);
            return Ok(bytes);
        }
        held += n;
    }
    Err(RunFault::TooLarge)
}

/// Asks the source once for more bytes, puts them after the `held` ones, and returns how many came: none at the end. If the buffer
/// is full, it grows before the source is asked.
fn take_piece<A: Allocator, S: Source>(
    source: &mut S,
    bytes: &mut Vec<u8, A>,
    held: usize,
    most: usize,
) -> Result<usize, RunFault>
    requires held { held ≤ vec_len bytes.old }
    requires more { held < most }
    requires within { vec_len bytes.old ≤ most }
    requires small { most ≤ MAX_FILE + 1 }
    ensures piece { IfOk result
        (AddsPiece (S.state source.old) (S.state source.new) held bytes.old.items bytes.new.items) }
    ensures end { result ≡ Ok 0 → IsTrue (S.state source.old).tells → (S.state source.new).rest ≡ [] }
    ensures fine { OnOk result ((S.state source.new).failed ≡ false) }
    ensures room { IfOk result (λ n. held + n ≤ vec_len bytes.new) }
    ensures within { OnOk result (vec_len bytes.new ≤ most) }
    ensures err { IfErr result (λ fault. StopsPiece fault (S.state source.old) (S.state source.new)) }
{
    grow(bytes, held, most)?;
    match source.take(&mut bytes.as_mut_slice()[held..]) {
        Ok(n) => Ok(n),
        Err(SourceFailed) => Err(RunFault::Read),
    }
}

/// If all bytes of the buffer are held, makes it larger, up to `most` bytes.
fn grow<A: Allocator>(bytes: &mut Vec<u8, A>, held: usize, most: usize) -> Result<(), RunFault>
    requires held { held ≤ vec_len bytes.old }
    requires more { held < most }
    requires within { vec_len bytes.old ≤ most }
    requires small { most ≤ MAX_FILE + 1 }
    ensures kept { OnOk result (take held bytes.new.items ≡ take held bytes.old.items) }
    ensures more { OnOk result (held < vec_len bytes.new) }
    ensures within { OnOk result (vec_len bytes.new ≤ most) }
    ensures err { IfErr result (λ fault. fault ≡ RunFault.Memory) }
{
    let len = bytes.len();
    if held < len {
        return Ok(());
    }
    match bytes.resize(len + ROOM.min(most - len), 0) {
        Ok(()) => Ok(()),
        Err(AllocError) => Err(RunFault::Memory),
    }
}

/// Puts the whole text into the sink, and flushes it.
fn put_all<K: Sink>(sink: &mut K, text: &[u8]) -> Result<(), RunFault>
    ensures ok { OnOk result (PutsAll text.now (K.state sink.old) (K.state sink.new)) }
    ensures err { IfErr result (λ fault. StopsWriting text.now fault (K.state sink.old) (K.state sink.new)) }
{
    // The proof knows from here that the count so far fits.
    let _moved = sink.moved();
    let mut done = 0;
    while done < text.len() {
        match sink.put(&text[done..]) {
            Ok(n) => done += n,
            Err(SinkFailed) => return Err(RunFault::Write { done }),
        }
    }
    match sink.flush() {
        Ok(()) => Ok(()),
        Err(SinkFailed) => Err(RunFault::Write { done }),
    }
}
