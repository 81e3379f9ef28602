//! The numbers of TWKB, and the cursor that reads its bytes.
//!
//! A [`Cursor`] reads bytes in order and counts each byte that it reads. It lends no slice of them and can't be cloned, so every
//! byte that a caller learns of is counted. It reads the varints of the format:
//!
//! - [`Cursor::uvarint`] and [`Cursor::svarint`] read the number at the cursor's place, or return one of two faults
//!   ([`NumFault`]). They are the hot path: numbers of one and of two bytes take no loop.
//! - [`Cursor::svarints`] reads some signed numbers, [`Cursor::take_run`] reads points and gives their numbers to a [`TakePoints`],
//!   and [`Cursor::pass_numbers`] moves past numbers. A caller says how many, and each call does
//!   what as many single reads do, whether the numbers are short or long and the end of the bytes is near or not. So these calls
//!   tell nothing of bytes that aren't counted.
//! - [`Prefetch`] has the processor look up pages of memory before a cursor reads them.
//! - [`zigzag`] and [`unzigzag`] map signed numbers to unsigned ones and back.
//! - [`units`] scales a coordinate of any precision to units of 10^-7, in which boxes and windows are compared.
//!
//! ```
//! let mut cursor = Cursor::new(&[0xC8, 0x01, 0x80]);
//! cursor.svarint(); // Ok(100): the place is 2, and 2 bytes are counted
//! cursor.uvarint(); // Err(NumFault::Cut): the place is still 2, and 3 bytes are counted
//! units(100, 2); // 10000000: 1.00 is that many units
//! ```
//!
//! `specs/Varint.antt` defines which bytes spell a number (`Spells`), and `specs/Cursor.antt` what contracts see of a cursor.
//! No call allocates, and every call returns.
#![tactic(auto)]

mod cursor;
mod ends;
mod scale;
mod signed;
mod tables;
#[cfg(test)]
mod tests;
mod varint;
mod vectors;

pub use cursor::{Cursor, Prefetch, TakePoints};
pub use scale::units;
pub use signed::{unzigzag, zigzag};
pub use varint::NumFault;
