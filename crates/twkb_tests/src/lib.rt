//! Tests of public functions: of headers, of certified layers, and of the calls from other languages. The tests of single blobs
//! are in `twkb_body_tests`.
//!
//! They are a crate of their own, so that the libraries need nothing that only tests use. Private parts are tested in their own
//! crates.
#![tactic(auto)]

#[cfg(test)]
mod tests;
