//! [`Refusal`], why bytes aren't a certified layer. Used by other crates, and here by `audits` and `certified`.
use thiserror::Error;

/// Why bytes aren't a certified layer.
#[derive(Clone, Copy, Debug, PartialEq, Eq, Error)]
pub enum Refusal {
    /// The first blob that is malformed or has a false claim, the offset in the file of what is wrong in it, and the number of
    /// its kind: of `Why` if it is malformed, otherwise of `Claim`.
    #[error("blob {blob} is refused at {offset}, for kind {kind}")]
    No {
        blob: usize,
        offset: usize,
        kind: u8,
    },
    /// A list of ids needs more memory than there is.
    #[error("out of memory")]
    Memory,
}
