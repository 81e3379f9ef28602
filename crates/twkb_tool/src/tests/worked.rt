//! Lists and scans of worked files, and of files that are refused.
use super::{answers, scan_for};
use crate::request::Request;
use std::test::Fail;

/// Lists: a row for each blob, and none for no blob.
#[rattlefmt::skip]
const LISTS: [(&[u8], &str); 5] = [
    // list of the empty layer
    (b"", ""),
    // list of two blobs
    (b"\x02\x03\x09\x02\x08\x02\x08\x02\x02\x02\x08\x08\x01\x01\x14\x00\x14\x00\x14\x14", "blob=0 offset=0 bytes=12 type=linestring precision=0 vertices=2 size=yes box=yes\nblob=1 offset=12 bytes=8 type=point precision=0 vertices=1 size=no box=yes\n"),
    // list of a coarse point
    (b"\x11\x00\xB6\x40\x00", "blob=0 offset=0 bytes=5 type=point precision=-1 vertices=1 size=no box=no\n"),
    // each type
    (b"\x01\x00\x02\x04\x02\x00\x02\x02\x02\x08\x08\x03\x00\x00\x04\x04\x02\x02\x04\x00\x00\x02\x02\x05\x00\x02\x02\x02\x02\x02\x02\x01\x02\x02\x06\x04\x01\x0E\x01\x01\x02\x02\x07\x10", "blob=0 offset=0 bytes=4 type=point precision=0 vertices=1 size=no box=no\nblob=1 offset=4 bytes=7 type=linestring precision=0 vertices=2 size=no box=no\nblob=2 offset=11 bytes=3 type=polygon precision=0 vertices=0 size=no box=no\nblob=3 offset=14 bytes=9 type=multipoint precision=0 vertices=2 size=no box=no\nblob=4 offset=23 bytes=11 type=multilinestring precision=0 vertices=3 size=no box=no\nblob=5 offset=34 bytes=8 type=multipolygon precision=0 vertices=1 size=no box=no\nblob=6 offset=42 bytes=2 type=geometrycollection precision=0 vertices=0 size=no box=no\n"),
    // refused, list
    (b"\x02\x03\x0A\x02\x08\x02\x08\x02\x02\x02\x08\x08", "no blob=0 offset=2 kind=size\n"),
];

#[test]
fn lists(rt: HostRuntime) -> Result<(), Fail> {
    for (bytes, text) in &LISTS {
        answers(&rt, rt.alloc(), bytes, 1, &Request::List, text)?;
        answers(&rt, rt.alloc(), bytes, 1000, &Request::List, text)?;
    }
    Ok(())
}

/// Scans: the hits of each window, and how many bytes were read for it.
#[rattlefmt::skip]
const SCANS: [(&[u8], &[&str], &str); 24] = [
    // refused, scan
    (b"\x02\x03\x0A\x02\x08\x02\x08\x02\x02\x02\x08\x08", &["x=0..9,y=0..9"], "no blob=0 offset=2 kind=size\n"),
    // empty layer
    (b"", &["x=0..1,y=0..1"], "hits=0 read=0 of=0\n"),
    // vertex on the corner
    (b"\x02\x00\x02\x02\x02\x08\x08", &["x=5..9,y=5..9"], "hit blob=0 offset=0\nhits=1 read=7 of=7\n"),
    // box misses
    (b"\x02\x03\x09\x02\x08\x02\x08\x02\x02\x02\x08\x08", &["x=6..9,y=0..9"], "hits=0 read=7 of=12\n"),
    // box meets, no vertex inside
    (b"\x02\x03\x09\x02\x08\x02\x08\x02\x02\x02\x08\x08", &["x=2..3,y=2..3"], "hits=0 read=12 of=12\n"),
    // box touches
    (b"\x02\x03\x09\x02\x08\x02\x08\x02\x02\x02\x08\x08", &["x=5..9,y=5..9"], "hit blob=0 offset=0\nhits=1 read=12 of=12\n"),
    // coarse point
    (b"\x11\x00\xB6\x40\x00", &["x=41230..41230,y=0..0"], "hit blob=0 offset=0\nhits=1 read=5 of=5\n"),
    // hop inside a collection
    (b"\x07\x00\x02\x01\x03\x06\x14\x00\x14\x00\x14\x14\x01\x00\x02\x04", &["x=0..5,y=0..5"], "hit blob=0 offset=0\nhits=1 read=14 of=16\n"),
    // box without a size is not hopped
    (b"\x02\x03\x09\x02\x08\x02\x08\x02\x02\x02\x08\x08\x01\x01\x14\x00\x14\x00\x14\x14", &["x=6..9,y=0..9"], "hits=0 read=15 of=20\n"),
    // two rings
    (b"\x03\x00\x02\x01\x02\x02\x01\x02\x02", &["x=2..2,y=2..2"], "hit blob=0 offset=0\nhits=1 read=9 of=9\n"),
    // differences restart
    (b"\x07\x00\x02\x01\x00\x02\x02\x01\x00\x02\x02", &["x=2..2,y=2..2"], "hits=0 read=11 of=11\n"),
    // empty point with a box
    (b"\x01\x11\x14\x00\x14\x00", &["x=0..1,y=0..1"], "hits=0 read=6 of=6\n"),
    // empty point
    (b"\x01\x10", &["x=0..1,y=0..1"], "hits=0 read=2 of=2\n"),
    // lines
    (b"\x05\x00\x02\x02\x02\x02\x02\x02\x01\x02\x02", &["x=3..3,y=3..3"], "hit blob=0 offset=0\nhits=1 read=11 of=11\n"),
    // two windows
    (b"\x02\x03\x09\x02\x08\x02\x08\x02\x02\x02\x08\x08\x01\x01\x14\x00\x14\x00\x14\x14", &["x=6..9,y=0..9", "x=10..10,y=10..10"], "hits=0 read=0 of=20\nhit blob=1 offset=12\nhits=1 read=8 of=20\n"),
    // the same window twice
    (b"\x02\x03\x09\x02\x08\x02\x08\x02\x02\x02\x08\x08", &["x=6..9,y=0..9", "x=6..9,y=0..9"], "hits=0 read=0 of=12\nhits=0 read=0 of=12\n"),
    // Z misses
    (b"\x01\x0B\x01\x09\x02\x00\x04\x00\x06\x00\x02\x04\x06", &["x=1..1,y=2..2,z=4..5"], "hits=0 read=10 of=13\n"),
    // Z meets
    (b"\x01\x0B\x01\x09\x02\x00\x04\x00\x06\x00\x02\x04\x06", &["x=1..1,y=2..2,z=3..3"], "hit blob=0 offset=0\nhits=1 read=13 of=13\n"),
    // Z at precision 2
    (b"\x01\x08\x09\x02\x04\xC8\x01", &["x=1..1,y=2..2,z=1..1"], "hit blob=0 offset=0\nhits=1 read=7 of=7\n"),
    // Z at precision 2, below
    (b"\x01\x08\x09\x02\x04\xC8\x01", &["x=1..1,y=2..2,z=0..0.99"], "hits=0 read=7 of=7\n"),
    // no Z in the blob
    (b"\x02\x00\x02\x02\x02\x08\x08", &["x=1..5,y=1..5,z=0..0"], "hits=0 read=7 of=7\n"),
    // M alone
    (b"\x01\x08\x62\x02\x04\xD0\x0F", &["x=1..1,y=2..2,m=1..1"], "hit blob=0 offset=0\nhits=1 read=7 of=7\n"),
    // box has Z, member has none
    (b"\x07\x09\x01\x00\x02\x00\x02\x14\x00\x01\x01\x00\x02\x02", &["x=0..5,y=0..5,z=0..5"], "hits=0 read=14 of=14\n"),
    // with a directory
    (b"\x07\x09\x01\x00\x02\x00\x02\x14\x00\x01\x01\x00\x02\x02", &["x=0..5,y=0..5,z=0..5", "x=1..1,y=1..1"], "hits=0 read=0 of=14\nhit blob=0 offset=0\nhits=1 read=14 of=14\n"),
];

#[test]
fn scans(rt: HostRuntime) -> Result<(), Fail> {
    for (bytes, windows, text) in &SCANS {
        let request = scan_for(&rt, rt.alloc(), windows)?;
        answers(&rt, rt.alloc(), bytes, 1, &request, text)?;
        answers(&rt, rt.alloc(), bytes, 1000, &request, text)?;
    }
    Ok(())
}
