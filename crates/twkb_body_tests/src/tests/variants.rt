//! Worked blobs with each cut and with each byte changed, against a plain reader.
use super::blobs::CERTIFIED;
use super::faults::{FALSE, MALFORMED};
use super::tight::{LOOSE, TIGHT};
use super::{answers, false_claim};
use plain::Fault;
use random_layers::Dice;
use std::alloc::{AllocError, Global};
use std::process::Abort;
use std::test::Fail;
use twkb_body::{Audit, AuditFault, Claim};

// The answer of the plain reader, as the answer of an audit.
fn audited(answer: Result<plain::Layer, Fault>) -> Result<Audit, AuditFault> {
    match answer {
        Ok(layer) => Ok(Audit {
            vertices: layer.vertices.len(),
            stop: layer.geometries.first().map_or(0, |blob| blob.whole),
        }),
        Err(Fault::Malformed(malformed)) => Err(AuditFault::Malformed(malformed)),
        Err(Fault::Memory) => Err(AuditFault::Memory),
        Err(Fault::FalseClaim { offset, claim }) => {
            let claim = match claim {
                plain::Claim::Size => Claim::Size,
                plain::Claim::Box => Claim::Box,
                plain::Claim::Ids => Claim::Ids,
                plain::Claim::Loose => Claim::Loose,
            };
            false_claim(offset, claim)
        }
    }
}

/// The plain audit or the tight one answers as the plain reader does. `true` says that it certifies a blob.
pub fn agrees(rt: &impl Abort, alloc: Global, bytes: &[u8], is_tight: bool) -> bool {
    let plainly = if is_tight {
        audited(plain::read_blob_tight(alloc, bytes))
    } else {
        audited(plain::read_blob(alloc, bytes))
    };
    answers(rt, alloc, bytes, is_tight, plainly);
    plainly.is_ok()
}

/// Both audits answer as the plain reader does. `true` says that the first one certifies a blob.
pub fn both_agree(rt: &impl Abort, alloc: Global, bytes: &[u8]) -> bool {
    agrees(rt, alloc, bytes, true);
    agrees(rt, alloc, bytes, false)
}

/// Both audits answer as the plain reader does for 4000 blobs made at random. Returns how many of them they certify.
pub fn random_blobs_agree<F: Fn(Global, &mut Dice) -> Result<Vec<u8>, AllocError>>(
    rt: &impl Abort,
    alloc: Global,
    make: F,
) -> Result<u64, Fail>
    requires { F.IsAlwaysCallable make }
{
    let mut certified = 0u64;
    for seed in 0..4000 {
        let bytes = make(alloc, &mut Dice::new(seed))?;
        if both_agree(rt, alloc, &bytes) {
            certified = certified.saturating_add(1);
        }
    }
    Ok(certified)
}

/// Sets a byte, which is there.
pub fn set(rt: &impl Abort, bytes: &mut [u8], place: usize, value: u8) {
    match bytes.get_mut(place) {
        Some(byte) => *byte = value,
        None => panic!(rt; "there is no byte at {place}"),
    }
}

// Both audits agree with the plain reader on the bytes with the byte at the place set to every value.
fn values_agree(rt: &impl Abort, alloc: Global, bytes: &mut [u8], place: usize) {
    for value in 0..=255u8 {
        set(rt, bytes, place, value);
        both_agree(rt, alloc, bytes);
    }
}

/// Both audits agree with the plain reader on the bytes, on each cut of them, and on the bytes with each byte set to every value.
pub fn variants_agree(rt: &impl Abort, alloc: Global, bytes: &[u8]) -> Result<(), Fail> {
    let mut changed = Vec::new(alloc);
    changed.extend_from_slice(bytes)?;
    for k in 0..bytes.len() {
        both_agree(rt, alloc, &bytes[..k]);
        values_agree(rt, alloc, &mut changed, k);
        set(rt, &mut changed, k, bytes[k]);
    }
    Ok(())
}

#[test]
fn variants_of_certified_blobs(rt: HostRuntime) -> Result<(), Fail> {
    for &(bytes, _) in &CERTIFIED {
        variants_agree(&rt, rt.alloc(), bytes)?;
    }
    Ok(())
}

#[test]
fn variants_of_refused_blobs(rt: HostRuntime) -> Result<(), Fail> {
    for &(bytes, _, _) in &MALFORMED {
        variants_agree(&rt, rt.alloc(), bytes)?;
    }
    for &(bytes, _, _) in &FALSE {
        variants_agree(&rt, rt.alloc(), bytes)?;
    }
    Ok(())
}

#[test]
fn variants_of_tight_and_loose_boxes(rt: HostRuntime) -> Result<(), Fail> {
    for &(bytes, _) in &TIGHT {
        variants_agree(&rt, rt.alloc(), bytes)?;
    }
    for &(bytes, _, _) in &LOOSE {
        variants_agree(&rt, rt.alloc(), bytes)?;
    }
    Ok(())
}
