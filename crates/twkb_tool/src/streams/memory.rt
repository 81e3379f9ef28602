//! A source and a sink over memory, which state their bytes and can be told to fail.
ghost use Rattle.std.specs.Prelude.{◌≡◌, ◌<◌, ◌≤◌, ◌-◌, min, length, [], take, IfOk, OnOk, OnErr, true, false, is_err, IsTrue};
ghost use Rattle.std.specs.Result.{result_unwrap_or};
ghost use Rattle.twkb_tool.specs.Memory.{is_failing, number_after, puts_fail};
ghost use Rattle.twkb_tool.specs.Streams.{Takes, Gives};

use crate::streams::{Sink, SinkFailed, Source, SourceFailed};
use std::alloc::{AllocError, Allocator};
use std::marker::Model;

/// A source over bytes.
#[derive(Drop)]
pub struct MemSource<'a> {
    rest: &'a [u8],
    step: usize,
    calls: Calls,
    moved: u64,
    failed: bool,
}

impl<'a> Model for MemSource<'a> {
    ghost use Rattle.std.specs.Prelude.{◌<◌, true};
    ghost use Rattle.twkb_tool.specs.Memory.{MemSourceState};

    ghost Value = { MemSourceState };

    ghost view = { λ s. record {
      state = record { tells = true; rest = s.rest.now; moved = s.moved; failed = s.failed };
      step = s.step;
      next = s.calls.next;
      fail_at = s.calls.fail_at;
    } };

    ghost invariant = { λ s. 0 < s.step };
}

impl<'a> MemSource<'a> {
    /// A source of these bytes, which gives at most `step` bytes a call. Calls of `take` are numbered from 1. Only call
    /// `fail_at` fails.
    pub fn new(bytes: &'a [u8], step: usize, fail_at: Option<usize>) -> MemSource<'a>
        requires { 0 < step }
        ensures { result ≡ record {
          state = record { tells = true; rest = bytes.entry.now; moved = 0; failed = false };
          step = step;
          next = Some 1;
          fail_at = fail_at;
        } }
    {
        MemSource {
            rest: bytes,
            step,
            calls: Calls::new(fail_at),
            moved: 0,
            failed: false,
        }
    }
}

impl<'a> Source for MemSource<'a> {
    ghost state = { λ s. s.state };

    fn take(&mut self, room: &mut [u8]) -> Result<usize, SourceFailed>
        ensures within { IfOk result (λ n. n ≤ length room.old) }
        ensures gives { IfOk result (λ n. Gives self.old.state self.new.state (take n room.new)) }
        ensures end { result ≡ Ok 0 → 0 < length room.old → IsTrue self.old.state.tells → self.new.state.rest ≡ [] }
        ensures ok { OnOk result (self.new.state.failed ≡ false) }
        ensures err { OnErr result (self.new.state ≡ record self.old.state { failed = true }) }
        ensures fails { is_err result ≡ is_failing self.old.next self.old.fail_at }
        ensures most { IfOk result (λ n. n ≡ min (min self.old.step (length room.old)) (length self.old.state.rest)) }
        ensures next { self.new ≡ record self.old { state = self.new.state; next = number_after self.old.next } }
    {
        self.failed = self.calls.is_next_failing();
        if self.failed {
            return Err(SourceFailed);
        }
        let n = self.step.min(room.len()).min(self.rest.len());
        let (given, rest) = self.rest.split_at(n);
        room[..n].copy_from_slice(given);
        self.rest = rest;
        self.moved = self.moved.saturating_add(n as u64);
        Ok(n)
    }

    fn moved(&self) -> u64 {
        self.moved
    }
}

/// A sink over memory that is reserved when the sink is made.
#[derive(Drop)]
pub struct MemSink<A: Allocator> {
    bytes: Vec<u8, A>,
    room: usize,
    step: usize,
    calls: Calls,
    moved: u64,
    failed: bool,
    flushing: bool,
}

impl<A: Allocator> Model for MemSink<A> {
    ghost use Rattle.std.specs.Prelude.{◌+◌, ◌<◌, ◌≤◌, true, vec_len};
    ghost use Rattle.std.specs.Vec.{vec_capacity};
    ghost use Rattle.twkb_tool.specs.Memory.{MemSinkState};

    ghost Value = { MemSinkState };

    ghost view = { λ s. record {
      state = record { tells = true; bytes = s.bytes.items; moved = s.moved; failed = s.failed; flushing = s.flushing };
      room = s.room;
      step = s.step;
      next = s.calls.next;
      fail_at = s.calls.fail_at;
    } };

    ghost invariant = { λ s. (0 < s.step) × (vec_len s.bytes + s.room ≤ vec_capacity s.bytes) };
}

impl<A: Allocator> MemSink<A> {
    /// A sink with room for `room` bytes, which takes at most `step` bytes a call. Calls of `put` and `flush` are numbered
    /// together from 1. Only call `fail_at` fails, and any `put` for which no room is left.
    pub fn new(
        alloc: A,
        room: usize,
        step: usize,
        fail_at: Option<usize>,
    ) -> Result<MemSink<A>, AllocError>
        requires { 0 < step }
        ensures { IfOk result (λ sink. sink ≡ record {
          state = record { tells = true; bytes = []; moved = 0; failed = false; flushing = false };
          room = room;
          step = step;
          next = Some 1;
          fail_at = fail_at;
        }) }
    {
        let bytes = Vec::with_capacity(alloc, room)?;
        Ok(MemSink {
            bytes,
            room,
            step,
            calls: Calls::new(fail_at),
            moved: 0,
            failed: false,
            flushing: false,
        })
    }

    /// The bytes that were put.
    pub fn bytes(&self) -> &[u8]
        ensures { result.now ≡ self.now.state.bytes }
    {
        self.bytes.as_slice()
    }
}

impl<A: Allocator> Sink for MemSink<A> {
    ghost state = { λ s. s.state };

    fn put(&mut self, piece: &[u8]) -> Result<usize, SinkFailed>
        ensures within { IfOk result (λ n. n ≤ length piece.now) }
        ensures some { IfOk result (λ n. 0 < length piece.now → 0 < n) }
        ensures takes { IfOk result (λ n. Takes self.old.state self.new.state (take n piece.now)) }
        ensures ok { OnOk result ((self.new.state.failed ≡ false) × (self.new.state.flushing ≡ false)) }
        ensures err { OnErr result (self.new.state ≡ record self.old.state { failed = true; flushing = false }) }
        ensures fails { is_err result ≡ puts_fail self.old (length piece.now) }
        ensures most { IfOk result (λ n. n ≡ min (min self.old.step self.old.room) (length piece.now)) }
        ensures next { self.new ≡ record self.old {
          state = self.new.state;
          room = self.new.room;
          next = number_after self.old.next;
        } }
        ensures room { self.new.room ≡ self.old.room - result_unwrap_or result 0 }
    {
        self.flushing = false;
        self.failed = self.calls.is_next_failing() || (self.room == 0 && !piece.is_empty());
        if self.failed {
            return Err(SinkFailed);
        }
        let n = self.step.min(self.room).min(piece.len());
        self.room -= n;
        self.bytes.extend_from_slice(&piece[..n]).unwrap();
        self.moved = self.moved.saturating_add(n as u64);
        Ok(n)
    }

    fn flush(&mut self) -> Result<(), SinkFailed>
        ensures state { self.new.state ≡ record self.old.state { failed = is_err result; flushing = true } }
        ensures fails { is_err result ≡ is_failing self.old.next self.old.fail_at }
        ensures next { self.new ≡ record self.old { state = self.new.state; next = number_after self.old.next } }
    {
        self.flushing = true;
        self.failed = self.calls.is_next_failing();
        if self.failed { Err(SinkFailed) } else { Ok(()) }
    }

    fn moved(&self) -> u64 {
        self.moved
    }
}

/// The number of the next call, from 1, and the number of the call that has to fail, if one has to.
#[derive(Clone, Copy)]
struct Calls {
    next: Option<usize>,
    fail_at: Option<usize>,
}

impl Calls {
    /// No call yet; the call of the number `fail_at` is to fail.
    fn new(fail_at: Option<usize>) -> Calls
        ensures { result ≡ record { next = Some 1; fail_at = fail_at } }
    {
        Calls {
            next: Some(1),
            fail_at,
        }
    }

    /// Counts a call, and returns whether it is the call that fails.
    fn is_next_failing(&mut self) -> bool
        ensures fails { result ≡ is_failing self.old.next self.old.fail_at }
        ensures next { self.new ≡ record self.old { next = number_after self.old.next } }
    {
        let Some(number) = self.next else {
            return false;
        };
        self.next = number.checked_add(1);
        self.fail_at == Some(number)
    }
}
