//! A source over std's `Read` and a sink over std's `Write`, which don't state their bytes. Used by `main`.
ghost use Rattle.std.specs.Prelude.{◌≡◌, false};

use crate::streams::{Sink, SinkFailed, Source, SourceFailed};
use std::io::{Read, Write};

/// A source over a reader. An interrupted call is a failure.
#[derive(Drop)]
pub struct FromReader<R> {
    reader: R,
    moved: u64,
    failed: bool,
}

impl<R: Read> FromReader<R> {
    /// A source that has given nothing yet.
    pub fn new(reader: R) -> FromReader<R>
        ensures moved { (⟦<FromReader<R> as Source>⟧.state result).moved ≡ 0 }
        ensures failed { (⟦<FromReader<R> as Source>⟧.state result).failed ≡ false }
    {
        FromReader {
            reader,
            moved: 0,
            failed: false,
        }
    }
}

impl<R: Read> Source for FromReader<R> {
    ghost use Rattle.std.specs.Prelude.{false, []};

    ghost state = { λ s. record { tells = false; rest = []; moved = s.moved; failed = s.failed } };

    fn take(&mut self, room: &mut [u8]) -> Result<usize, SourceFailed> {
        match self.reader.read(room) {
            Ok(n) => {
                self.failed = false;
                self.moved = self.moved.saturating_add(n as u64);
                Ok(n)
            }
            Err(_) => {
                self.failed = true;
                Err(SourceFailed)
            }
        }
    }

    fn moved(&self) -> u64 {
        self.moved
    }
}

/// A sink over a writer. An interrupted call is a failure, and so is one that takes none of the bytes it is given.
#[derive(Drop)]
pub struct ToWriter<W> {
    writer: W,
    moved: u64,
    failed: bool,
    flushing: bool,
}

impl<W: Write> ToWriter<W> {
    /// A sink that has taken nothing yet.
    pub fn new(writer: W) -> ToWriter<W>
        ensures moved { (⟦<ToWriter<W> as Sink>⟧.state result).moved ≡ 0 }
        ensures failed { (⟦<ToWriter<W> as Sink>⟧.state result).failed ≡ false }
        ensures flushing { (⟦<ToWriter<W> as Sink>⟧.state result).flushing ≡ false }
    {
        ToWriter {
            writer,
            moved: 0,
            failed: false,
            flushing: false,
        }
    }
}

impl<W: Write> Sink for ToWriter<W> {
    ghost use Rattle.std.specs.Prelude.{false, []};

    ghost state = { λ s. record {
      tells = false;
      bytes = [];
      moved = s.moved;
      failed = s.failed;
      flushing = s.flushing;
    } };

    fn put(&mut self, piece: &[u8]) -> Result<usize, SinkFailed> {
        self.flushing = false;
        match self.writer.write(piece) {
            Ok(n) if n > 0 || piece.is_empty() => {
                self.failed = false;
                self.moved = self.moved.saturating_add(n as u64);
                Ok(n)
            }
            _ => {
                self.failed = true;
                Err(SinkFailed)
            }
        }
    }

    fn flush(&mut self) -> Result<(), SinkFailed> {
        self.flushing = true;
        self.failed = self.writer.flush().is_err();
        if self.failed { Err(SinkFailed) } else { Ok(()) }
    }

    fn moved(&self) -> u64 {
        self.moved
    }
}
