//! The text that is printed for a certified layer. Used by `judge`.
ghost use Rattle.std.specs.Prelude.{◌≡◌, ℕ, ◌+◌, ◌-◌, ◌*◌, ◌^◌, ◌<◌, ◌≤◌, ◌++◌, List, length, flat_map, take, sum_by, IfOk, OnOk, vec_len};
ghost use Rattle.twkb_body.specs.Geometry.{Geometry};
ghost use Rattle.twkb_layer.specs.Directory.{IsDirectoryOf, directory_cost};
ghost use Rattle.twkb_layer.specs.Hits.{cost};
ghost use Rattle.twkb_layer.specs.Layer.{IsCertifiedLayer, AddsAtMost, OfLayer};
ghost use Rattle.twkb_layer.specs.Rows.{rows};
ghost use Rattle.twkb_tool.specs.Devices.Scanned.{all_read, most_built};
ghost use Rattle.twkb_tool.specs.Output.{row_line, hit_line, end_line, window_text, scan_text, layer_text};
ghost use Rattle.twkb_tool.specs.Words.{HoldsWindows};

mod lines;

use crate::request::Request;
use crate::run::MAX_FILE;
pub use lines::push_no_line;
use lines::{push_end_line, push_hit_line, push_ok_line, push_row_line};
use std::alloc::{AllocError, Allocator};
use twkb_layer::{Certified, Directory, Hit, Row, Window};

/// Pushes the text for a certified layer.
pub fn push_layer_text<'a, A: Allocator>(
    alloc: &'a A,
    out: &mut Vec<u8, &'a A>,
    request: &Request,
    layer: &mut Certified,
) -> Result<(), AllocError>
    requires windows { HoldsWindows request.now }
    requires small { length layer.old.bytes ≤ MAX_FILE }
    requires read { layer.old.count ≤ MAX_FILE }
    ensures { OfLayer layer.old.bytes (λ trees.
        OnOk result (out.new.items ≡ out.old.items ++ layer_text request.now trees (length layer.old.bytes))) }
{
    match request {
        Request::Check | Request::CheckTight => {
            push_ok_line(out, layer.blobs(), layer.vertices())
        }
        Request::List => push_list(alloc, out, layer),
        Request::Scan(windows) => push_scan(alloc, out, windows.as_slice(), layer),
    }
}

// ---- a list

/// Pushes the line of each blob.
fn push_list<'a, A: Allocator>(
    alloc: &'a A,
    out: &mut Vec<u8, &'a A>,
    layer: &mut Certified,
) -> Result<(), AllocError>
    ensures { OfLayer layer.old.bytes (λ trees.
        OnOk result (out.new.items ≡ out.old.items ++ flat_map row_line (rows trees))) }
{
    let rows = layer.list_in(alloc)?;
    push_rows(out, rows.as_slice())
}

/// Pushes a line for each row.
fn push_rows<A: Allocator>(out: &mut Vec<u8, A>, rows: &[Row]) -> Result<(), AllocError>
    ensures { OnOk result (out.new.items ≡ out.old.items ++ flat_map row_line rows.now) }
{
    for row in rows {
        push_row_line(out, *row)?;
    }
    Ok(())
}

// ---- scans

/// Pushes the hits of each window. One window is scanned for blob after blob, several with a directory. The count
/// grows by what the text says and, unless there is one window, by at most the layer's length more, for the directory.
fn push_scan<'a, A: Allocator>(
    alloc: &'a A,
    out: &mut Vec<u8, &'a A>,
    windows: &[Window],
    layer: &mut Certified,
) -> Result<(), AllocError>
    requires few { length windows.now ≤ 64 }
    requires small { length layer.old.bytes ≤ MAX_FILE }
    requires read { layer.old.count ≤ MAX_FILE }
    ensures text { OfLayer layer.old.bytes (λ trees.
        OnOk result (out.new.items ≡ out.old.items ++ scan_text windows.now trees (length layer.old.bytes))) }
    ensures count { OfLayer layer.old.bytes (λ trees. OnOk result ((built : ℕ)
        × (built ≤ most_built windows.now layer.old.bytes)
        × (layer.new.count ≡ layer.old.count + built + all_read windows.now trees))) }
{
    let mut room = room_for(alloc, layer.blobs())?;
    if let [window] = windows {
        return push_window(out, layer, window, room.as_mut_slice());
    }
    let directory = Directory::build_in(alloc, layer)?;
    push_windows(out, layer, &directory, windows, room.as_mut_slice())
}

/// Room for the hits of `blobs` blobs.
fn room_for<A: Allocator>(alloc: A, blobs: usize) -> Result<Vec<Hit, A>, AllocError>
    ensures { IfOk result (λ room. vec_len room ≡ blobs) }
{
    let mut room = Vec::new(alloc);
    room.resize(blobs, Hit { blob: 0, offset: 0 })?;
    Ok(room)
}

/// Pushes what a scan for one window found and read.
fn push_window<A: Allocator>(
    out: &mut Vec<u8, A>,
    layer: &mut Certified,
    window: &Window,
    room: &mut [Hit],
) -> Result<(), AllocError>
    requires room { (trees : List Geometry) × IsCertifiedLayer trees layer.old.bytes
        × (length trees ≤ length room.old) }
    requires read { layer.old.count + length layer.old.bytes < 2 ^ 64 - 1 }
    ensures text { OfLayer layer.old.bytes (λ trees.
        OnOk result (out.new.items ≡ out.old.items ++ window_text cost trees (length layer.old.bytes) window.now)) }
    ensures count { OfLayer layer.old.bytes (λ trees.
        layer.new.count ≡ layer.old.count + sum_by (cost window.now) trees) }
{
    let before = layer.read_count();
    let found = layer.scan(window, room);
    let read = layer.read_count() - before;
    push_found(out, room, found, read, layer.len())
}

/// Pushes what scans for each window with a directory found and read.
fn push_windows<A: Allocator, D: Allocator>(
    out: &mut Vec<u8, A>,
    layer: &mut Certified,
    directory: &Directory<D>,
    windows: &[Window],
    room: &mut [Hit],
) -> Result<(), AllocError>
    requires directory { IsDirectoryOf directory.now layer.old.bytes }
    requires room { (trees : List Geometry) × IsCertifiedLayer trees layer.old.bytes
        × (length trees ≤ length room.old) }
    requires few { length windows.now ≤ 64 }
    requires small { length layer.old.bytes ≤ MAX_FILE }
    requires read { layer.old.count ≤ 3 * MAX_FILE }
    ensures text { OfLayer layer.old.bytes (λ trees.
        OnOk result (out.new.items ≡ out.old.items
        ++ flat_map (window_text directory_cost trees (length layer.old.bytes)) windows.now)) }
    ensures count { OfLayer layer.old.bytes (λ trees. OnOk result (
        layer.new.count ≡ layer.old.count + sum_by (λ w. sum_by (directory_cost w) trees) windows.now)) }
{
    for window in windows {
        push_window_at(out, layer, directory, window, room)?;
    }
    Ok(())
}

/// Pushes what a scan for one window with a directory found and read.
fn push_window_at<A: Allocator, D: Allocator>(
    out: &mut Vec<u8, A>,
    layer: &mut Certified,
    directory: &Directory<D>,
    window: &Window,
    room: &mut [Hit],
) -> Result<(), AllocError>
    requires directory { IsDirectoryOf directory.now layer.old.bytes }
    requires room { (trees : List Geometry) × IsCertifiedLayer trees layer.old.bytes
        × (length trees ≤ length room.old) }
    requires read { layer.old.count + length layer.old.bytes < 2 ^ 64 - 1 }
    ensures text { OfLayer layer.old.bytes (λ trees.
        OnOk result (out.new.items ≡ out.old.items
        ++ window_text directory_cost trees (length layer.old.bytes) window.now)) }
    ensures bytes { layer.new.bytes ≡ layer.old.bytes }
    ensures count { OfLayer layer.old.bytes (λ trees.
        layer.new.count ≡ layer.old.count + sum_by (directory_cost window.now) trees) }
    ensures few { AddsAtMost (length layer.old.bytes) layer.old.count layer.new.count }
{
    let before = layer.read_count();
    let found = directory.scan(layer, window, room);
    let read = layer.read_count() - before;
    push_found(out, room, found, read, layer.len())
}

/// Pushes the lines of the hits in the front of the room, and then the line of how many hits there are, how many bytes were
/// read for them, and how many bytes the layer has.
fn push_found<A: Allocator>(
    out: &mut Vec<u8, A>,
    room: &[Hit],
    found: usize,
    read: u64,
    len: usize,
) -> Result<(), AllocError>
    requires { found ≤ length room.now }
    ensures { OnOk result (out.new.items ≡ out.old.items
        ++ (flat_map hit_line (take found room.now) ++ end_line found read len)) }
{
    push_hits(out, &room[..found])?;
    push_end_line(out, found, read, len)
}

/// Pushes a line for each hit.
fn push_hits<A: Allocator>(out: &mut Vec<u8, A>, hits: &[Hit]) -> Result<(), AllocError>
    ensures { OnOk result (out.new.items ≡ out.old.items ++ flat_map hit_line hits.now) }
{
    for hit in hits {
        push_hit_line(out, hit)?;
    }
    Ok(())
}
