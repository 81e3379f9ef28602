//! Whole runs on worked files, stage by stage of the format.
use super::{answers, equal};
use crate::judge::Verdict;
use crate::request::Request;
use crate::run::{RunFault, run};
use crate::status::status_of;
use crate::streams::memory::{MemSink, MemSource};
use std::alloc::Global;
use std::process::Abort;
use std::test::Fail;

/// Runs `check` on each file, in pieces and at once.
fn check_each(rt: &impl Abort, alloc: Global, files: &[(&[u8], &str)]) -> Result<(), Fail> {
    for (bytes, text) in files {
        answers(rt, alloc, bytes, 1, &Request::Check, text)?;
        answers(rt, alloc, bytes, 1000, &Request::Check, text)?;
    }
    Ok(())
}

/// Points, and bytes that are no blob.
#[rattlefmt::skip]
const LAYERS_OF_POINTS: [(&[u8], &str); 15] = [
    // empty layer
    (b"", "ok blobs=0 vertices=0\n"),
    // point
    (b"\x01\x00\x02\x04", "ok blobs=1 vertices=1\n"),
    // sized point
    (b"\x01\x02\x02\x02\x04", "ok blobs=1 vertices=1\n"),
    // size off by one
    (b"\x01\x02\x03\x02\x04", "no blob=0 offset=2 kind=size\n"),
    // false size before a malformed blob
    (b"\x01\x02\x03\x02\x04\x08", "no blob=0 offset=2 kind=size\n"),
    // long varint
    (b"\x01\x00\x82\x00\x04", "ok blobs=1 vertices=1\n"),
    // varint too long
    (b"\x01\x00\x80\x80\x80\x80\x80\x80\x80\x80\x80\x02", "no blob=0 offset=2 kind=varint\n"),
    // varint cut
    (b"\x01\x00\x80\x80\x80\x80\x80\x80\x80\x80\x80", "no blob=0 offset=2 kind=cut\n"),
    // type byte 0800
    (b"\x08\x00", "no blob=0 offset=0 kind=type\n"),
    // type byte 0000
    (b"\x00\x00", "no blob=0 offset=0 kind=type\n"),
    // type byte 08
    (b"\x08", "no blob=0 offset=0 kind=type\n"),
    // coarse point
    (b"\x11\x00\xB6\x40\x00", "ok blobs=1 vertices=1\n"),
    // unused metadata bits
    (b"\x01\xE0\x02\x04", "ok blobs=1 vertices=1\n"),
    // id bit on a point
    (b"\x01\x04\x02\x04", "ok blobs=1 vertices=1\n"),
    // metadata byte missing
    (b"\x01", "no blob=0 offset=1 kind=cut\n"),
];

#[test]
fn layers_of_points(rt: HostRuntime) -> Result<(), Fail> {
    check_each(&rt, rt.alloc(), &LAYERS_OF_POINTS)
}

/// Extended bytes and empty geometries, and headers that are cut.
#[rattlefmt::skip]
const HEADERS: [(&[u8], &str); 8] = [
    // empty sized point
    (b"\x01\x12\x00", "ok blobs=1 vertices=0\n"),
    // point with Z
    (b"\x01\x08\x09\x02\x04\xC8\x01", "ok blobs=1 vertices=1\n"),
    // point with Z and M
    (b"\x01\x08\x03\x02\x04\x06\x08", "ok blobs=1 vertices=1\n"),
    // point with M
    (b"\x01\x08\x62\x02\x04\xD0\x0F", "ok blobs=1 vertices=1\n"),
    // extended byte without axes
    (b"\x01\x08\xFC\x02\x04", "ok blobs=1 vertices=1\n"),
    // empty point
    (b"\x01\x10", "ok blobs=1 vertices=0\n"),
    // extended byte missing
    (b"\x01\x08", "no blob=0 offset=2 kind=cut\n"),
    // box cut
    (b"\x02\x01\x02", "no blob=0 offset=3 kind=cut\n"),
];

#[test]
fn headers(rt: HostRuntime) -> Result<(), Fail> {
    check_each(&rt, rt.alloc(), &HEADERS)
}

/// Lines, polygons and geometries of many parts.
#[rattlefmt::skip]
const BODIES: [(&[u8], &str); 9] = [
    // line
    (b"\x02\x00\x02\x02\x02\x08\x08", "ok blobs=1 vertices=2\n"),
    // coordinate out of range
    (b"\x02\x00\x02\xFE\xFF\xFF\xFF\xFF\xFF\xFF\xFF\xFF\x01\x00\x02\x00", "no blob=0 offset=14 kind=range\n"),
    // coordinate out of range below
    (b"\x02\x00\x02\xFF\xFF\xFF\xFF\xFF\xFF\xFF\xFF\xFF\x01\x00\x01\x00", "no blob=0 offset=14 kind=range\n"),
    // hostile count
    (b"\x04\x00\xFF\xFF\xFF\xFF\xFF\xFF\xFF\xFF\xFF\x01", "no blob=0 offset=12 kind=cut\n"),
    // size past the end
    (b"\x02\x02\x05\x02\x02\x02", "no blob=0 offset=6 kind=cut\n"),
    // two rings run on
    (b"\x03\x00\x02\x01\x02\x02\x01\x02\x02", "ok blobs=1 vertices=2\n"),
    // polygon without rings
    (b"\x03\x00\x00", "ok blobs=1 vertices=0\n"),
    // lines
    (b"\x05\x00\x02\x02\x02\x02\x02\x02\x01\x02\x02", "ok blobs=1 vertices=3\n"),
    // sized line
    (b"\x02\x02\x05\x02\x02\x02\x08\x08", "ok blobs=1 vertices=2\n"),
];

#[test]
fn bodies(rt: HostRuntime) -> Result<(), Fail> {
    check_each(&rt, rt.alloc(), &BODIES)
}

/// Boxes of geometries that are no collections.
#[rattlefmt::skip]
const BOXES: [(&[u8], &str); 9] = [
    // boxed line
    (b"\x02\x03\x09\x02\x08\x02\x08\x02\x02\x02\x08\x08", "ok blobs=1 vertices=2\n"),
    // boxed line, size too large
    (b"\x02\x03\x0A\x02\x08\x02\x08\x02\x02\x02\x08\x08", "no blob=0 offset=2 kind=size\n"),
    // false size before a false box
    (b"\x02\x03\x0A\x02\x06\x02\x08\x02\x02\x02\x08\x08", "no blob=0 offset=2 kind=size\n"),
    // box too small
    (b"\x02\x03\x09\x02\x06\x02\x08\x02\x02\x02\x08\x08", "no blob=0 offset=3 kind=box\n"),
    // second blob cut
    (b"\x02\x03\x09\x02\x08\x02\x08\x02\x02\x02\x08\x08\x01\x00\x02", "no blob=1 offset=15 kind=cut\n"),
    // negative extent over nothing
    (b"\x02\x01\x02\x01\x00\x00\x00", "ok blobs=1 vertices=0\n"),
    // negative extent
    (b"\x02\x01\x02\x01\x00\x00\x01\x00\x00", "no blob=0 offset=2 kind=box\n"),
    // empty point with a box
    (b"\x01\x11\x14\x00\x14\x00", "ok blobs=1 vertices=0\n"),
    // box past 64 bits
    (b"\x01\x01\xFE\xFF\xFF\xFF\xFF\xFF\xFF\xFF\xFF\x01\xFE\xFF\xFF\xFF\xFF\xFF\xFF\xFF\xFF\x01\x00\x00\xFE\xFF\xFF\xFF\xFF\xFF\xFF\xFF\xFF\x01\x00", "ok blobs=1 vertices=1\n"),
];

#[test]
fn boxes(rt: HostRuntime) -> Result<(), Fail> {
    check_each(&rt, rt.alloc(), &BOXES)
}

/// Collections, their depth, their members and their boxes.
#[rattlefmt::skip]
const COLLECTIONS: [(&[u8], &str); 14] = [
    // box and member at two precisions
    (b"\x07\x01\x02\x02\x02\x02\x01\x21\x00\x1E\x1E", "ok blobs=1 vertices=1\n"),
    // member outside the box at another precision
    (b"\x07\x01\x02\x02\x02\x02\x01\x21\x00\x32\x32", "no blob=0 offset=2 kind=box\n"),
    // 32 nested collections, then nothing
    (b"\x07\x00\x01\x07\x00\x01\x07\x00\x01\x07\x00\x01\x07\x00\x01\x07\x00\x01\x07\x00\x01\x07\x00\x01\x07\x00\x01\x07\x00\x01\x07\x00\x01\x07\x00\x01\x07\x00\x01\x07\x00\x01\x07\x00\x01\x07\x00\x01\x07\x00\x01\x07\x00\x01\x07\x00\x01\x07\x00\x01\x07\x00\x01\x07\x00\x01\x07\x00\x01\x07\x00\x01\x07\x00\x01\x07\x00\x01\x07\x00\x01\x07\x00\x01\x07\x00\x01\x07\x00\x01\x07\x00\x01\x07\x00\x01", "no blob=0 offset=96 kind=cut\n"),
    // 31 nested collections
    (b"\x07\x00\x01\x07\x00\x01\x07\x00\x01\x07\x00\x01\x07\x00\x01\x07\x00\x01\x07\x00\x01\x07\x00\x01\x07\x00\x01\x07\x00\x01\x07\x00\x01\x07\x00\x01\x07\x00\x01\x07\x00\x01\x07\x00\x01\x07\x00\x01\x07\x00\x01\x07\x00\x01\x07\x00\x01\x07\x00\x01\x07\x00\x01\x07\x00\x01\x07\x00\x01\x07\x00\x01\x07\x00\x01\x07\x00\x01\x07\x00\x01\x07\x00\x01\x07\x00\x01\x07\x00\x01\x07\x00\x01\x01\x10", "ok blobs=1 vertices=0\n"),
    // 63 nested collections
    (b"\x07\x00\x01\x07\x00\x01\x07\x00\x01\x07\x00\x01\x07\x00\x01\x07\x00\x01\x07\x00\x01\x07\x00\x01\x07\x00\x01\x07\x00\x01\x07\x00\x01\x07\x00\x01\x07\x00\x01\x07\x00\x01\x07\x00\x01\x07\x00\x01\x07\x00\x01\x07\x00\x01\x07\x00\x01\x07\x00\x01\x07\x00\x01\x07\x00\x01\x07\x00\x01\x07\x00\x01\x07\x00\x01\x07\x00\x01\x07\x00\x01\x07\x00\x01\x07\x00\x01\x07\x00\x01\x07\x00\x01\x07\x00\x01\x07\x00\x01\x07\x00\x01\x07\x00\x01\x07\x00\x01\x07\x00\x01\x07\x00\x01\x07\x00\x01\x07\x00\x01\x07\x00\x01\x07\x00\x01\x07\x00\x01\x07\x00\x01\x07\x00\x01\x07\x00\x01\x07\x00\x01\x07\x00\x01\x07\x00\x01\x07\x00\x01\x07\x00\x01\x07\x00\x01\x07\x00\x01\x07\x00\x01\x07\x00\x01\x07\x00\x01\x07\x00\x01\x07\x00\x01\x07\x00\x01\x07\x00\x01\x07\x00\x01\x07\x00\x01\x07\x00\x01\x01\x10", "ok blobs=1 vertices=0\n"),
    // 64 nested collections
    (b"\x07\x00\x01\x07\x00\x01\x07\x00\x01\x07\x00\x01\x07\x00\x01\x07\x00\x01\x07\x00\x01\x07\x00\x01\x07\x00\x01\x07\x00\x01\x07\x00\x01\x07\x00\x01\x07\x00\x01\x07\x00\x01\x07\x00\x01\x07\x00\x01\x07\x00\x01\x07\x00\x01\x07\x00\x01\x07\x00\x01\x07\x00\x01\x07\x00\x01\x07\x00\x01\x07\x00\x01\x07\x00\x01\x07\x00\x01\x07\x00\x01\x07\x00\x01\x07\x00\x01\x07\x00\x01\x07\x00\x01\x07\x00\x01\x07\x00\x01\x07\x00\x01\x07\x00\x01\x07\x00\x01\x07\x00\x01\x07\x00\x01\x07\x00\x01\x07\x00\x01\x07\x00\x01\x07\x00\x01\x07\x00\x01\x07\x00\x01\x07\x00\x01\x07\x00\x01\x07\x00\x01\x07\x00\x01\x07\x00\x01\x07\x00\x01\x07\x00\x01\x07\x00\x01\x07\x00\x01\x07\x00\x01\x07\x00\x01\x07\x00\x01\x07\x00\x01\x07\x00\x01\x07\x00\x01\x07\x00\x01\x07\x00\x01\x07\x00\x01\x07\x00\x01\x07\x00\x01", "no blob=0 offset=189 kind=depth\n"),
    // differences restart
    (b"\x07\x00\x02\x01\x00\x02\x02\x01\x00\x02\x02", "ok blobs=1 vertices=2\n"),
    // box with an axis that the member lacks
    (b"\x07\x09\x01\x00\x02\x00\x02\x14\x00\x01\x01\x00\x02\x02", "ok blobs=1 vertices=1\n"),
    // empty collection
    (b"\x07\x10", "ok blobs=1 vertices=0\n"),
    // false size in a member
    (b"\x07\x00\x01\x01\x02\x03\x02\x04", "no blob=0 offset=5 kind=size\n"),
    // type in a member
    (b"\x07\x00\x01\x0F\x00", "no blob=0 offset=3 kind=type\n"),
    // sized collection
    (b"\x07\x02\x05\x01\x01\x00\x02\x04", "ok blobs=1 vertices=1\n"),
    // false box in a member
    (b"\x07\x00\x01\x01\x01\x14\x00\x14\x00\x02\x04", "no blob=0 offset=5 kind=box\n"),
    // false size below a false box
    (b"\x07\x01\x00\x00\x00\x00\x01\x01\x02\x03\x02\x04", "no blob=0 offset=2 kind=box\n"),
];

#[test]
fn collections(rt: HostRuntime) -> Result<(), Fail> {
    check_each(&rt, rt.alloc(), &COLLECTIONS)
}

/// Lists of ids, with and without equal ids.
#[rattlefmt::skip]
const ID_LISTS: [(&[u8], &str); 9] = [
    // equal ids
    (b"\x04\x04\x02\x02\x02\x00\x00\x02\x02", "no blob=0 offset=3 kind=ids\n"),
    // ids
    (b"\x04\x04\x02\x02\x04\x00\x00\x02\x02", "ok blobs=1 vertices=2\n"),
    // 17 ids
    (b"\x04\x04\x11\x00\x02\x04\x06\x08\x0A\x0C\x0E\x10\x12\x14\x16\x18\x1A\x1C\x1E\x20\x00\x00\x00\x00\x00\x00\x00\x00\x00\x00\x00\x00\x00\x00\x00\x00\x00\x00\x00\x00\x00\x00\x00\x00\x00\x00\x00\x00\x00\x00\x00\x00\x00\x00", "ok blobs=1 vertices=17\n"),
    // 17 ids, two equal
    (b"\x04\x04\x11\x00\x02\x04\x06\x08\x0A\x0C\x0E\x10\x12\x14\x16\x18\x1A\x1C\x1E\x00\x00\x00\x00\x00\x00\x00\x00\x00\x00\x00\x00\x00\x00\x00\x00\x00\x00\x00\x00\x00\x00\x00\x00\x00\x00\x00\x00\x00\x00\x00\x00\x00\x00\x00", "no blob=0 offset=3 kind=ids\n"),
    // one polygon with an id
    (b"\x06\x04\x01\x0E\x01\x01\x02\x02", "ok blobs=1 vertices=1\n"),
    // equal ids of members
    (b"\x07\x04\x02\x02\x02\x01\x10\x01\x10", "no blob=0 offset=3 kind=ids\n"),
    // equal ids in two lists
    (b"\x07\x00\x02\x04\x04\x01\x02\x00\x00\x04\x04\x01\x02\x00\x00", "ok blobs=1 vertices=2\n"),
    // equal ids before a false size
    (b"\x07\x04\x02\x02\x02\x01\x02\x03\x02\x04\x01\x10", "no blob=0 offset=3 kind=ids\n"),
    // hostile count of ids
    (b"\x04\x04\xFF\xFF\xFF\xFF\xFF\xFF\xFF\xFF\xFF\x01", "no blob=0 offset=12 kind=cut\n"),
];

#[test]
fn id_lists(rt: HostRuntime) -> Result<(), Fail> {
    check_each(&rt, rt.alloc(), &ID_LISTS)
}

/// Files that are cut or changed in one byte: where they are malformed.
#[rattlefmt::skip]
const PLACES: [(&[u8], &str); 16] = [
    // line cut to 1
    (b"\x02", "no blob=0 offset=1 kind=cut\n"),
    // line cut to 2
    (b"\x02\x00", "no blob=0 offset=2 kind=cut\n"),
    // line cut to 3
    (b"\x02\x00\x02", "no blob=0 offset=3 kind=cut\n"),
    // line cut to 4
    (b"\x02\x00\x02\x02", "no blob=0 offset=4 kind=cut\n"),
    // line cut to 5
    (b"\x02\x00\x02\x02\x02", "no blob=0 offset=5 kind=cut\n"),
    // line cut to 6
    (b"\x02\x00\x02\x02\x02\x08", "no blob=0 offset=6 kind=cut\n"),
    // range file cut to 12
    (b"\x02\x00\x02\xFE\xFF\xFF\xFF\xFF\xFF\xFF\xFF\xFF", "no blob=0 offset=3 kind=cut\n"),
    // range file cut to 14
    (b"\x02\x00\x02\xFE\xFF\xFF\xFF\xFF\xFF\xFF\xFF\xFF\x01\x00", "no blob=0 offset=14 kind=cut\n"),
    // range file cut to 15
    (b"\x02\x00\x02\xFE\xFF\xFF\xFF\xFF\xFF\xFF\xFF\xFF\x01\x00\x02", "no blob=0 offset=14 kind=range\n"),
    // boxed line, byte 0 set to 0B
    (b"\x0B\x03\x09\x02\x08\x02\x08\x02\x02\x02\x08\x08", "no blob=0 offset=0 kind=type\n"),
    // boxed line, byte 1 set to 01
    (b"\x02\x01\x09\x02\x08\x02\x08\x02\x02\x02\x08\x08", "no blob=0 offset=12 kind=cut\n"),
    // boxed line, byte 7 set to 01
    (b"\x02\x03\x09\x02\x08\x02\x08\x01\x02\x02\x08\x08", "no blob=0 offset=2 kind=size\n"),
    // boxed line, byte 7 set to 03
    (b"\x02\x03\x09\x02\x08\x02\x08\x03\x02\x02\x08\x08", "no blob=0 offset=12 kind=cut\n"),
    // boxed line, byte 11 set to 0A
    (b"\x02\x03\x09\x02\x08\x02\x08\x02\x02\x02\x08\x0A", "no blob=0 offset=3 kind=box\n"),
    // boxed line, byte 11 set to 88
    (b"\x02\x03\x09\x02\x08\x02\x08\x02\x02\x02\x08\x88", "no blob=0 offset=11 kind=cut\n"),
    // line, byte 2 set to 01
    (b"\x02\x00\x01\x02\x02\x08\x08", "no blob=1 offset=5 kind=type\n"),
];

#[test]
fn places_of_malformations(rt: HostRuntime) -> Result<(), Fail> {
    check_each(&rt, rt.alloc(), &PLACES)
}

/// Files under tight checking.
#[rattlefmt::skip]
const TIGHT: [(&[u8], &str); 12] = [
    // a box round its line
    (b"\x02\x03\x09\x02\x08\x02\x08\x02\x02\x02\x08\x08", "ok blobs=1 vertices=2\n"),
    // a collection's box a step of its own precision beyond a finer member
    (b"\x07\x01\x02\x02\x02\x02\x01\x21\x00\x1E\x1E", "ok blobs=1 vertices=1\n"),
    // X from 0 in place of 1
    (b"\x02\x01\x00\x0A\x02\x08\x02\x02\x02\x08\x08", "no blob=0 offset=2 kind=loose\n"),
    // X to 6 in place of 5
    (b"\x02\x01\x02\x0A\x02\x08\x02\x02\x02\x08\x08", "no blob=0 offset=2 kind=loose\n"),
    // a false box
    (b"\x02\x03\x09\x02\x06\x02\x08\x02\x02\x02\x08\x08", "no blob=0 offset=3 kind=box\n"),
    // two blobs
    (b"\x02\x03\x09\x02\x08\x02\x08\x02\x02\x02\x08\x08\x01\x01\x14\x00\x14\x00\x14\x14", "ok blobs=2 vertices=3\n"),
    // a negative extent over nothing
    (b"\x02\x01\x02\x01\x00\x00\x00", "ok blobs=1 vertices=0\n"),
    // Z that no vertex has, and X that one has
    (b"\x07\x09\x01\x00\x02\x00\x02\x14\x00\x01\x01\x00\x02\x02", "no blob=0 offset=3 kind=loose\n"),
    // a loose box before a false size
    (b"\x02\x01\x00\x0A\x02\x08\x02\x02\x02\x08\x08\x01\x02\x03\x02\x04", "no blob=0 offset=2 kind=loose\n"),
    // a point without a box
    (b"\x01\x00\x02\x04", "ok blobs=1 vertices=1\n"),
    // seventeen ids
    (b"\x04\x04\x11\x00\x02\x04\x06\x08\x0A\x0C\x0E\x10\x12\x14\x16\x18\x1A\x1C\x1E\x20\0\0\0\0\0\0\0\0\0\0\0\0\0\0\0\0\0\0\0\0\0\0\0\0\0\0\0\0\0\0\0\0\0\0", "ok blobs=1 vertices=17\n"),
    // two of them equal
    (b"\x04\x04\x11\x00\x02\x04\x06\x08\x0A\x0C\x0E\x10\x12\x14\x16\x18\x1A\x1C\x1E\x00\0\0\0\0\0\0\0\0\0\0\0\0\0\0\0\0\0\0\0\0\0\0\0\0\0\0\0\0\0\0\0\0\0\0", "no blob=0 offset=3 kind=ids\n"),
];

#[test]
fn tight_checking(rt: HostRuntime) -> Result<(), Fail> {
    for (bytes, text) in &TIGHT {
        answers(&rt, rt.alloc(), bytes, 1, &Request::CheckTight, text)?;
        answers(&rt, rt.alloc(), bytes, 1000, &Request::CheckTight, text)?;
    }
    Ok(())
}

#[test]
fn the_limit_is_the_most_bytes(rt: HostRuntime) -> Result<(), Fail> {
    let bytes = [0x02, 0x00, 0x02, 0x02, 0x02, 0x08, 0x08];
    for (limit, wanted) in [(6, Err(RunFault::TooLarge)), (7, Ok(Verdict::Yes))] {
        let mut source = MemSource::new(&bytes, 100, None);
        let mut sink = MemSink::new(rt.alloc(), 100, 100, None)?;
        let outcome = run(rt.alloc(), &mut source, &mut sink, &Request::Check, limit);
        equal(&rt, outcome, wanted);
        equal(&rt, sink.bytes().is_empty(), wanted.is_err());
    }
    Ok(())
}

#[test]
fn statuses_follow_the_answer(rt: HostRuntime) {
    for (outcome, status) in [
        (Ok(Verdict::Yes), 0),
        (Ok(Verdict::No), 1),
        (Err(RunFault::Read), 3),
        (Err(RunFault::TooLarge), 3),
        (Err(RunFault::Memory), 3),
        (Err(RunFault::Write { done: 7 }), 3),
    ] {
        equal(&rt, status_of(&outcome), status);
    }
}
