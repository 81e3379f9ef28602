//! [`Verdict`], the result of certifying bytes, in numbers, and the two public functions that return it. Used by other crates.
ghost use Rattle.std.specs.Prelude.{◌≡◌, List, ◌⊎◌};
ghost use Rattle.twkb_body.specs.Claims.{IsTrueClaim};
ghost use Rattle.twkb_body.specs.Geometry.{Geometry};
ghost use Rattle.twkb_body.specs.Tight.{IsTightlyTrue};
ghost use Rattle.twkb_layer.specs.Layer.{IsCertifiedLayer, IsCounted};
ghost use Rattle.twkb_layer.specs.Tight.{IsTightLayer};
ghost use Rattle.twkb_call.specs.Verdict.{yes, Says};
ghost use Rattle.twkb_call.specs.Devices.Verdict.{verdict_on};

use twkb_layer::{AuditRoom, Certified, Cursor, Refusal, certify_tight_with, certify_with};

/// The verdict on bytes. Fields that the answer doesn't use are 0.
#[repr(C)]
#[derive(Clone, Copy, Debug, PartialEq, Eq)]
pub struct Verdict {
    /// 0 certified, 1 refused, 2 out of memory.
    pub answer: u32,
    /// Of a refusal: the kind.
    pub kind: u32,
    /// Of a certified layer: the number of blobs.
    pub blobs: usize,
    /// Of a certified layer: the number of vertices.
    pub vertices: usize,
    /// Of a refusal: the number of the blob.
    pub blob: usize,
    /// Of a refusal: the offset in the bytes.
    pub offset: usize,
}

const SIZE: usize = std::mem::size_of::<Verdict>();

// Callers in other languages lay it out by hand.
const _: () = prove!(SIZE == 40);

/// Certifies the bytes as a layer, with an allocator or with a buffer for the ids of a list, which it may overwrite, and no other
/// memory. The verdict is "out of memory" only if a list has more than sixteen ids and, with a buffer, more than the buffer has
/// places. The contract promises the first of these alone.
pub fn certify<R: AuditRoom>(room: &mut R, bytes: &[u8]) -> Verdict
    ensures says { Says IsTrueClaim result bytes.now }
    ensures complete { (trees : List Geometry) → IsCertifiedLayer trees bytes.now
        → (result.answer ≡ 0) ⊎ (result.answer ≡ 2) }
{
    match certify_with(room, Cursor::new(bytes)) {
        Ok(layer) => certified(&layer),
        Err(refusal) => refused(&refusal),
    }
}

/// Certifies the bytes as a layer without a loose box, with room for ids as in [`certify`].
pub fn certify_tight<R: AuditRoom>(room: &mut R, bytes: &[u8]) -> Verdict
    ensures says { Says IsTightlyTrue result bytes.now }
    ensures tight { result.answer ≡ 0 → (trees : List Geometry) × IsTightLayer trees bytes.now }
    ensures complete { (trees : List Geometry) → IsTightLayer trees bytes.now
        → (result.answer ≡ 0) ⊎ (result.answer ≡ 2) }
{
    match certify_tight_with(room, Cursor::new(bytes)) {
        Ok(layer) => certified(&layer),
        Err(refusal) => refused(&refusal),
    }
}

/// The verdict on a certified layer.
fn certified(layer: &Certified) -> Verdict
    ensures yes { result ≡ yes result.blobs result.vertices }
    ensures counted { IsCounted layer.now.bytes result.blobs result.vertices }
{
    Verdict {
        answer: 0,
        kind: 0,
        blobs: layer.blobs(),
        vertices: layer.vertices(),
        blob: 0,
        offset: 0,
    }
}

/// The verdict on bytes that are refused.
fn refused(refusal: &Refusal) -> Verdict
    ensures { result ≡ verdict_on refusal.now }
{
    match *refusal {
        Refusal::No { blob, offset, kind } => Verdict {
            answer: 1,
            kind: u32::from(kind),
            blobs: 0,
            vertices: 0,
            blob,
            offset,
        },
        Refusal::Memory => Verdict {
            answer: 2,
            kind: 0,
            blobs: 0,
            vertices: 0,
            blob: 0,
            offset: 0,
        },
    }
}
