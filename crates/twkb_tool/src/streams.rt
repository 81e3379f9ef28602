//! [`Source`] and [`Sink`], the streams that bytes come from and go to. Used by `run`.
ghost use Rattle.std.specs.Prelude.{◌≡◌, ◌<◌, ◌≤◌, length, [], take, IfOk, OnOk, OnErr, IsTrue, true, false, is_err};
ghost use Rattle.twkb_tool.specs.Streams.{SourceState, SinkState, Gives, Takes};

use thiserror::Error;

pub mod io;
pub mod memory;

/// A source that failed.
#[derive(Clone, Copy, Debug, PartialEq, Eq, Error)]
#[error("the source failed")]
pub struct SourceFailed;

/// A sink that failed.
#[derive(Clone, Copy, Debug, PartialEq, Eq, Error)]
#[error("the sink failed")]
pub struct SinkFailed;

/// An input: gives bytes, a piece at a time. An implementation says whether its contract states its bytes; if so, it states the
/// bytes that are still to come.
pub trait Source {
    ghost state: { Self → SourceState };

    /// Puts the next bytes at the front of `room`, and returns how many. If it puts none into a room with places, the source is
    /// at its end. An error gives no byte.
    fn take(&mut self, room: &mut [u8]) -> Result<usize, SourceFailed>
        ensures within { IfOk result (λ n. n ≤ length room.old) }
        ensures gives { IfOk result (λ n. Gives (state self.old) (state self.new) (take n room.new)) }
        ensures end { result ≡ Ok 0 → 0 < length room.old → IsTrue (state self.old).tells → (state self.new).rest ≡ [] }
        ensures ok { OnOk result ((state self.new).failed ≡ false) }
        ensures err { OnErr result (state self.new ≡ record (state self.old) { failed = true }) };

    /// How many bytes all calls gave, up to the greatest number.
    fn moved(&self) -> u64
        ensures { result ≡ (state self.now).moved };
}

/// An output: takes bytes, a piece at a time. An implementation says whether its contract states its bytes; if so, it states
/// the bytes that were put.
pub trait Sink {
    ghost state: { Self → SinkState };

    /// Takes the first bytes of `piece`, at least one if there is one, and returns how many. An error takes no byte.
    fn put(&mut self, piece: &[u8]) -> Result<usize, SinkFailed>
        ensures within { IfOk result (λ n. n ≤ length piece.now) }
        ensures some { IfOk result (λ n. 0 < length piece.now → 0 < n) }
        ensures takes { IfOk result (λ n. Takes (state self.old) (state self.new) (take n piece.now)) }
        ensures ok { OnOk result (((state self.new).failed ≡ false) × ((state self.new).flushing ≡ false)) }
        ensures err { OnErr result (state self.new ≡ record (state self.old) { failed = true; flushing = false }) };

    /// Passes on the bytes that it still holds.
    fn flush(&mut self) -> Result<(), SinkFailed>
        ensures { state self.new ≡ record (state self.old) { failed = is_err result; flushing = true } };

    /// How many bytes all calls took, up to the greatest number.
    fn moved(&self) -> u64
        ensures { result ≡ (state self.now).moved };
}
