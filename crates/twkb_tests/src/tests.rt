//! Tests of what no contract says: the answers for worked files, and each refused allocation.
use std::fmt::Debug;
use std::process::Abort;

mod call;
mod head;
mod layer;

// Asserts that a call answers as wanted. A test that calls this is proved sooner than one that compares in its own body.
fn equal<T: PartialEq + Debug + Drop>(rt: &impl Abort, got: T, wanted: T) {
    assert_eq!(rt; got, wanted);
}
