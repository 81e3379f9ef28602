//! If a file is malformed at an offset, the bytes before it are a blob that is begun: cut there, the file is cut short.
//!
//! This is a part of what `tests/cuts.py` does with all worked files, over the library for other languages.
use super::depths::deepest;
use super::equal;
use super::layers::{BOX_OF_A_MEMBER, EQUAL_IDS_BEFORE_A_SIZE, LONG_COORDINATE, SUM_PAST_64_BITS};
use super::tight::plain_refusal;
use super::worked::{
    BOXED_LINE, BOXED_POINT, COARSE_POINT, EMPTY_BOXED_POINT, EMPTY_POINT, HOP_IN_A_COLLECTION,
    MANY_IDS_ANNOUNCED, POINT_WITH_M, POINT_WITH_Z, PUBLISHED_LINE, TWO_LINES, TWO_MEMBERS,
    TWO_RINGS, Z_IN_THE_BOX_ALONE,
};
use random_layers::{FALLING_IDS, SEVENTEEN_IDS};
use std::alloc::Global;
use std::process::Abort;
use std::test::Fail;
use twkb_layer::{Cursor, Refusal, certify};

// Files of one blob.
const BLOBS: [&[u8]; 17] = [
    &PUBLISHED_LINE,
    &BOXED_LINE,
    &COARSE_POINT,
    &HOP_IN_A_COLLECTION,
    &TWO_RINGS,
    &TWO_MEMBERS,
    &EMPTY_POINT,
    &EMPTY_BOXED_POINT,
    &TWO_LINES,
    &POINT_WITH_Z,
    &POINT_WITH_M,
    &BOXED_POINT,
    &Z_IN_THE_BOX_ALONE,
    &SEVENTEEN_IDS,
    &FALLING_IDS,
    &BOX_OF_A_MEMBER,
    &EQUAL_IDS_BEFORE_A_SIZE,
];

// Files that are malformed. Only in variants of these a varint or a sum exceeds 64 bits.
const MALFORMED: [&[u8]; 3] = [&MANY_IDS_ANNOUNCED, &LONG_COORDINATE, &SUM_PAST_64_BITS];

// How many files were tried, how many of them the plain reader calls malformed, how many were cut at the offset, for each
// kind that was named, and how many of the cut ones ended with a blob.
#[derive(Clone, Copy)]
struct Met {
    tried: usize,
    malformed: usize,
    cut: [usize; 5],
    ended: usize,
}

// The refusal of a file for a kind from 1 to 5: the blob, the offset and the kind.
fn malformation(refusal: Option<Refusal>) -> Option<(usize, usize, u8)> {
    match refusal {
        Some(Refusal::No { blob, offset, kind }) if kind <= 5 => Some((blob, offset, kind)),
        _ => None,
    }
}

// Whether the file, cut at the offset, ends with a blob. If not, it is cut short there.
fn ends_there(rt: &impl Abort, alloc: Global, bytes: &[u8], blob: usize, offset: usize) -> bool {
    let front = bytes.get(..offset).expect(rt, "the offset is in the file");
    match certify(alloc, Cursor::new(front)) {
        Ok(layer) => {
            equal(rt, (layer.blobs(), bytes), (blob, bytes));
            true
        }
        Err(answer) => {
            let cut = Refusal::No {
                blob,
                offset,
                kind: 1,
            };
            equal(rt, (answer, bytes), (cut, bytes));
            false
        }
    }
}

fn judge(rt: &impl Abort, alloc: Global, bytes: &[u8], met: &mut Met) {
    met.tried = met.tried.saturating_add(1);
    if malformation(plain_refusal(alloc, bytes, false)).is_some() {
        met.malformed = met.malformed.saturating_add(1);
    }
    let refusal = certify(alloc, Cursor::new(bytes)).err();
    let Some((blob, offset, kind)) = malformation(refusal) else {
        return;
    };
    if ends_there(rt, alloc, bytes, blob, offset) {
        met.ended = met.ended.saturating_add(1);
    }
    if let Some(times) = met.cut.get_mut(usize::from(kind).wrapping_sub(1)) {
        *times = times.saturating_add(1);
    }
}

// Each byte is set to every value up to the last.
fn judge_variants(
    rt: &impl Abort,
    alloc: Global,
    bytes: &[u8],
    last: u8,
    met: &mut Met,
) -> Result<(), Fail> {
    let mut changed = Vec::new(alloc);
    changed.extend_from_slice(bytes)?;
    for k in 0..bytes.len() {
        for value in 0..=last {
            changed[k] = value;
            judge(rt, alloc, &changed, met);
        }
        changed[k] = bytes[k];
    }
    Ok(())
}

#[test]
fn a_blob_that_is_cut_is_refused_as_cut(rt: HostRuntime) -> Result<(), Fail> {
    let deepest = deepest(rt.alloc())?;
    is_cut_everywhere(&rt, rt.alloc(), &deepest);
    for &blob in &BLOBS {
        is_cut_everywhere(&rt, rt.alloc(), blob);
    }
    Ok(())
}

// The bytes cut after each of them but the last are refused as cut, in blob 0.
fn is_cut_everywhere(rt: &impl Abort, alloc: Global, bytes: &[u8]) {
    for length in 1..bytes.len() {
        let front = bytes.get(..length).expect(rt, "the length is in the file");
        match malformation(certify(alloc, Cursor::new(front)).err()) {
            Some((blob, _, kind)) => equal(rt, (blob, kind, front), (0, 1, front)),
            None => panic!(rt; "not refused: {front:?}"),
        }
    }
}

#[test]
fn what_stands_before_a_malformation_is_cut_short(rt: HostRuntime) -> Result<(), Fail> {
    let mut met = Met {
        tried: 0,
        malformed: 0,
        cut: [0; 5],
        ended: 0,
    };
    let mut variants = 0usize;
    for files in [BLOBS.as_slice(), MALFORMED.as_slice()] {
        for &file in files {
            variants = variants.saturating_add(file.len().saturating_mul(256));
            judge_variants(&rt, rt.alloc(), file, 255, &mut met)?;
        }
    }
    // In the deepest blob a collection may be too deep. Its bytes are only set to the kinds, since it has many bytes.
    let deepest = deepest(rt.alloc())?;
    variants = variants.saturating_add(deepest.len().saturating_mul(8));
    judge_variants(&rt, rt.alloc(), &deepest, 7, &mut met)?;
    equal(&rt, met.tried, variants);
    let mut cut = 0usize;
    for times in met.cut {
        assert!(&rt; times > 0);
        cut = cut.saturating_add(times);
    }
    equal(&rt, cut, met.malformed);
    assert!(&rt; met.ended > 0 && met.ended < cut);
    Ok(())
}
