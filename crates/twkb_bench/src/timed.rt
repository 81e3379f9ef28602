//! Steps that are done several times, and how long they take.
ghost use Rattle.std.specs.Prelude.{◌≡◌, IfOk};
ghost use Rattle.twkb_layer.specs.Directory.{IsDirectoryOf};

use crate::Failure;
use crate::request::Sought;
use std::alloc::Global;
use std::time::{Duration, Instant};
use std::{fmt, io};
use twkb_layer::{Certified, Cursor, Directory, Window, certify};

/// The best time of several.
#[derive(Clone, Copy)]
struct Best(Option<Duration>);

impl Best {
    /// Notes the time since the start.
    fn note(&mut self, start: Instant, rt: &HostRuntime) -> io::Result<()> {
        let time = start.elapsed(rt)?;
        if self.0.is_none_or(|best| time < best) {
            self.0 = Some(time);
        }
        Ok(())
    }
}

impl fmt::Display for Best {
    fn fmt<W: fmt::Write>(&self, f: &mut fmt::Formatter<W>) -> fmt::Result {
        match self.0 {
            Some(best) => {
                let nanoseconds = best.as_nanos();
                write!(f, " nanoseconds={nanoseconds}")
            }
            None => Ok(()),
        }
    }
}

/// Certifies a layer, and returns it.
pub fn time_audit<'a>(
    rt: &HostRuntime,
    bytes: &'a [u8],
    repeats: u32,
) -> Result<Certified<'a>, Failure> {
    let best = best_audit(rt, bytes, repeats)?;
    let layer = certify(rt.alloc(), Cursor::new(bytes))?;
    let (blobs, vertices) = (layer.blobs(), layer.vertices());
    println!(rt; "check blobs={blobs} vertices={vertices}{best}")?;
    Ok(layer)
}

fn best_audit(rt: &HostRuntime, bytes: &[u8], repeats: u32) -> Result<Best, Failure> {
    let mut best = Best(None);
    for _ in 0..repeats {
        let start = Instant::now(rt)?;
        let layer = certify(rt.alloc(), Cursor::new(bytes))?;
        best.note(start, rt)?;
        drop(layer);
    }
    Ok(best)
}

/// Scans for each window by hops.
pub fn time_hops(
    rt: &HostRuntime,
    layer: &mut Certified,
    windows: &[Sought],
    repeats: u32,
) -> io::Result<()> {
    for Sought { word, window } in windows {
        let before = layer.read_count();
        let found = layer.scan(window, &mut []);
        let read = layer.read_count().saturating_sub(before);
        let best = best_hop(rt, layer, window, repeats)?;
        println!(rt; "scan {word} found={found} read={read}{best}")?;
    }
    Ok(())
}

fn best_hop(
    rt: &HostRuntime,
    layer: &mut Certified,
    window: &Window,
    repeats: u32,
) -> io::Result<Best> {
    let mut best = Best(None);
    for _ in 0..repeats {
        let start = Instant::now(rt)?;
        layer.scan(window, &mut []);
        best.note(start, rt)?;
    }
    Ok(best)
}

/// Builds a directory.
pub fn time_build(rt: &HostRuntime, layer: &mut Certified, repeats: u32) -> io::Result<Directory>
    ensures directory { IfOk result (λ directory. IsDirectoryOf directory layer.new.bytes) }
{
    let best = best_build(rt, layer, repeats)?;
    let directory = Directory::build(rt.alloc(), layer)?;
    let blobs = layer.blobs();
    println!(rt; "build blobs={blobs}{best}")?;
    Ok(directory)
}

fn best_build(rt: &HostRuntime, layer: &mut Certified, repeats: u32) -> io::Result<Best> {
    let mut best = Best(None);
    for _ in 0..repeats {
        let start = Instant::now(rt)?;
        let directory = Directory::build(rt.alloc(), layer)?;
        best.note(start, rt)?;
        drop(directory);
    }
    Ok(best)
}

/// Scans for each window with a directory.
pub fn time_lookups(
    rt: &HostRuntime,
    layer: &mut Certified,
    directory: &Directory,
    windows: &[Sought],
    repeats: u32,
) -> io::Result<()>
    requires { IsDirectoryOf directory.now layer.old.bytes }
{
    for Sought { word, window } in windows {
        let before = layer.read_count();
        let found = directory.scan(layer, window, &mut []);
        let read = layer.read_count().saturating_sub(before);
        let best = best_lookup(rt, layer, directory, window, repeats)?;
        println!(rt; "directory {word} found={found} read={read}{best}")?;
    }
    Ok(())
}

fn best_lookup(
    rt: &HostRuntime,
    layer: &mut Certified,
    directory: &Directory,
    window: &Window,
    repeats: u32,
) -> io::Result<Best>
    requires { IsDirectoryOf directory.now layer.old.bytes }
    ensures { layer.new.bytes ≡ layer.old.bytes }
{
    let mut best = Best(None);
    for _ in 0..repeats {
        let start = Instant::now(rt)?;
        directory.scan(layer, window, &mut []);
        best.note(start, rt)?;
    }
    Ok(best)
}
