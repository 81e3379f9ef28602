//! Headers of TWKB: all that precedes the body of a geometry.
//!
//! A geometry begins with a header: the type and precision byte, the metadata byte, and, if these announce them, the extended
//! dimensions byte, the size and the box. [`read_head`] reads the header at the place of a [`Cursor`], in one pass and without
//! memory. Each byte is read and counted once.
//!
//! - On `Ok` a [`Head`] has all that the header says, and where its parts are. The box ([`Bounds`]) is in units of 10^-7, so that
//!   boxes of any precision compare with each other and with a [`Vertex`] ([`Bounds::holds`]). The cursor is after the header.
//! - On `Err` a [`Malformed`] names the first field that can't follow the bytes before it, and [`Why`]. The cursor is back at its
//!   place, and only the count has changed.
//!
//! [`read_raw`] reads a header with its box in raw integers ([`Fields`]), which are the numbers in the file. [`begin_head`] and
//! [`take_rest`] read a header in two steps: the first two bytes, and the rest. Audits and skims branch between the two, and choose
//! whether the reader of the box is inlined ([`BoxInlined`]) or called ([`BoxCalled`]).
//!
//! [`malformed`] makes a refusal out of a fault of a number, also for numbers of the body.
//!
//! A header has at most 93 bytes: three single ones, a size of ten, and a box of eight numbers of ten bytes each.
//!
//!     let mut cursor = Cursor::new(&[0x02, 0x03, 0x09, 0x02, 0x08, 0x02, 0x08, 0x02, 0x02, 0x02, 0x08, 0x08]);
//!     let head = read_head(&mut cursor, 1)?;
//!     // A line with a size and a box: head.size is 9, head.bounds X and Y from 1 to 5 in units, head.stop is 7.
//!
//! The definitions: `specs/Header.antt` says which bytes are a header (`IsHeader`), `specs/BegunHeader.antt` how a begun header
//! may go on, `specs/Head.antt` and `specs/Refusal.antt` what the results of `read_head` mean. [`laws`] has laws about these
//! definitions alone. Contracts of private functions also name `specs/Shared/`, here and in the crates above, and
//! `specs/Devices/`, only here: reading as a plan of fields (`Plan`, `HeadPlan`), and step by step from a cursor (`Reader`,
//! `HeadReader`).
#![tactic(auto)]

mod bits;
mod boxes;
mod field_readers;
mod header;
mod kinds;
pub mod laws;
mod ranges;
mod raw;
mod read;
mod refusal;

pub use boxes::{Bounds, Span, Vertex};
pub use field_readers::malformed;
pub use header::{BoxField, Head, SizeField};
pub use kinds::{DEEPEST, Kind};
pub use ranges::{BoxCalled, BoxInlined};
pub use raw::{Axes, Fields, RawBox, RawRange};
pub use read::{Begun, begin_head, begun_as, begun_by, read_head, read_raw, take_rest};
pub use refusal::{Malformed, Why};
pub use twkb_num::{Cursor, NumFault};
