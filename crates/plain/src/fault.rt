//! Why bytes are refused.
use std::alloc::AllocFailed;
use twkb_head::{Malformed, Why};

/// A claim that a geometry makes of itself, which may be false.
#[derive(Clone, Copy, Debug, PartialEq, Eq)]
pub enum Claim {
    Size,
    Box,
    Ids,
    /// That a box isn't loose, which only tight checking requires.
    Loose,
}

/// The first malformation of a blob, or if there is none, its false claim of least offset.
#[derive(Clone, Copy, Debug, PartialEq, Eq)]
pub enum Fault {
    Malformed(Malformed),
    FalseClaim { offset: usize, claim: Claim },
    Memory,
}

impl<T: Drop> From<AllocFailed<T>> for Fault {
    fn from(_failed: AllocFailed<T>) -> Fault {
        Fault::Memory
    }
}

pub fn malformed(offset: usize, why: Why) -> Fault {
    Fault::Malformed(Malformed { offset, why })
}
