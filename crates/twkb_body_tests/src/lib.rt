//! Tests of audits and skims, through their public functions.
//!
//! They are a crate of their own, so that `twkb_body` is proved once and needs nothing that only tests use.
#![tactic(auto)]

#[cfg(test)]
mod tests;
