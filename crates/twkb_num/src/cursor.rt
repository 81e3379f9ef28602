//! A cursor over bytes, which counts what it reads. Used by other crates.
ghost use Rattle.std.specs.Prelude.{◌≡◌, ◌+◌, ◌-◌, ◌<◌, ◌≤◌, ◌^◌, ◌↔◌, ℕ, ℤ, List, [], ◌∷◌, ◌++◌, length, take, false, IsNone, IfOk, IfErr, IfSome, IfNone, OnOk, OnSome};
ghost use Rattle.twkb_num.specs.Cursor.{rest, passed, counted, IsMoved, IsSound};
ghost use Rattle.twkb_num.specs.Devices.Ends.{SpellsMany};
ghost use Rattle.twkb_num.specs.Varint.{Spells, IsSigned, Faults, IsCut, looked_at};
ghost use Rattle.twkb_num.specs.declared.varint.NumFault.TheVariants.{Cut};
ghost use Rattle.twkb_num.specs.Devices.Varint.{IsBegunBy};

use crate::ends::first_varints;
use crate::signed::unzigzag;
use crate::varint::{NumFault, decode};
use std::marker::Model;

/// A position in bytes, and a count of the bytes read, which saturates at `u64::MAX`.
///
/// A call counts each byte that it returns or passes, and each byte that it looked at to find a fault. No public call lowers the
/// count, lends the bytes, or returns a second cursor. Only [`Cursor::go_to`] moves without counting, and it reads nothing.
///
/// [`Cursor::svarints`], [`Cursor::take_run`] and [`Cursor::pass_numbers`] read or pass as many numbers as a caller says. They return
/// what single reads of these numbers return, one after another, and leave the cursor where the last of these leaves it. They may
/// read short numbers together and touch bytes after them, but neither a result, nor a place, nor a count depends on such a byte.
/// So they tell nothing of bytes that aren't counted.
///
/// [`Prefetch`] reads one byte of each of the next pages of memory, and tells nothing about it.
///
/// Contracts see a cursor as a `Reading`. Each call takes constant space. Calls that pass many varints take time in proportion to
/// the bytes that they look at. All others take constant time, since a varint has at most ten bytes.
#[derive(Drop)]
pub struct Cursor<'a> {
    bytes: &'a [u8],
    place: usize,
    // The count is `counted_before` and the number of bytes from `start` to the place, so that a read changes only the place.
    // A jump moves `start` too. A fault adds to `counted_before`, since the bytes looked at aren't passed.
    start: usize,
    counted_before: u64,
    // Bits of the bytes that `Prefetch` touched last. No call reads them.
    touched: u8,
}

impl<'a> Model for Cursor<'a> {
    ghost use Rattle.std.specs.Prelude.{◌-◌, ◌≤◌};
    ghost use Rattle.twkb_num.specs.Cursor.{Reading, IsSound, added};

    ghost Value = { Reading };

    ghost view = { λ c. record {
      bytes = c.bytes.now;
      place = c.place;
      count = added c.counted_before (c.place - c.start);
    } };

    ghost invariant = { λ c. (c.start ≤ c.place) × IsSound (record {
      bytes = c.bytes.now;
      place = c.place;
      count = added c.counted_before (c.place - c.start);
    }) };
}

impl<'a> Cursor<'a> {
    /// A cursor at the first of the bytes, with nothing counted.
    #[inline]
    pub fn new(bytes: &'a [u8]) -> Self
        ensures { result ≡ record { bytes = bytes.now; place = 0; count = 0 } }
    {
        Cursor {
            bytes,
            place: 0,
            start: 0,
            counted_before: 0,
            touched: 0,
        }
    }

    /// The number of bytes before the next one.
    #[inline]
    pub fn place(&self) -> usize
        ensures value { result ≡ self.now.place }
        // Every cursor keeps this; a caller with a loop learns it here.
        ensures sound { IsSound self.now }
    {
        self.place
    }

    /// Does nothing. After it a proof knows that the place is within the bytes, and that the cursor's own numbers fit their types.
    #[inline(always)]
    pub fn place_is_within(&self)
        ensures { IsSound self.now }
    {
        let _place = self.place();
    }

    /// The number of all bytes, also of the bytes before the place.
    #[inline]
    pub fn len(&self) -> usize
        ensures { result ≡ length self.now.bytes }
    {
        self.bytes.len()
    }

    /// How many bytes were read so far, including bytes that were looked at to find a fault.
    #[inline]
    pub fn read_count(&self) -> u64
        ensures { result ≡ self.now.count }
    {
        let passed = self.place - self.start;
        self.counted_before.saturating_add(passed as u64)
    }

    /// Moves to a place, before or after the present one. The count is unchanged.
    #[inline]
    pub fn go_to(&mut self, place: usize)
        requires { place ≤ length self.old.bytes }
        ensures { self.new ≡ record self.old { place = place } }
    {
        self.counted_before = self.read_count();
        self.start = place;
        self.place = place;
    }

    /// Sets the place to `same`, which has to be the place already. If `same` was known earlier, the processor can begin the next
    /// read before it has computed where the last one ended.
    #[inline(always)]
    pub fn go_on_from(&mut self, same: usize)
        requires { same ≡ self.old.place }
        ensures { self.new ≡ self.old }
    {
        self.place = same;
    }

    // A copy for calls that keep it in registers, or that read all or nothing: it replaces the cursor, or is dropped with what it
    // read.
    #[inline(always)]
    fn copied(&self) -> Cursor<'a>
        ensures { result ≡ self.now }
    {
        Cursor {
            bytes: self.bytes,
            place: self.place,
            start: self.start,
            counted_before: self.counted_before,
            touched: self.touched,
        }
    }

    /// Reads the byte at the place. Returns `None` at the end.
    #[inline(always)]
    pub fn byte(&mut self) -> Option<u8>
        ensures some { IfSome result (λ byte. passed self.old self.new ≡ byte ∷ []) }
        ensures moved { OnSome result (IsMoved self.old self.new) }
        ensures end { IsNone result ↔ (rest self.old ≡ []) }
        ensures none { IfNone result (self.new ≡ self.old) }
    {
        let byte = *self.bytes.get(self.place)?;
        self.place += 1;
        Some(byte)
    }

    /// Reads the two bytes at the place. If fewer are left, it returns `None`, and the cursor is as it was.
    #[inline(always)]
    pub fn two_bytes(&mut self) -> Option<(u8, u8)>
        ensures some { IfSome result (λ two. passed self.old self.new ≡ two.0 ∷ two.1 ∷ []) }
        ensures moved { OnSome result (IsMoved self.old self.new) }
        ensures end { IsNone result ↔ length (rest self.old) < 2 }
        ensures none { IfNone result (self.new ≡ self.old) }
    {
        let two = *self.bytes[self.place..].first_chunk::<2>()?;
        self.place += 2;
        Some((two[0], two[1]))
    }

    /// Reads the unsigned varint at the place (TWKB specification, "VarInt Encode").
    ///
    /// A varint may be longer than it has to be. After a fault the place is unchanged, and the bytes looked at are counted.
    #[inline(always)]
    pub fn uvarint(&mut self) -> Result<u64, NumFault>
        ensures ok { IfOk result (λ n. Spells (passed self.old self.new) n) }
        ensures moved { OnOk result (IsMoved self.old self.new) }
        ensures complete { (n : ℕ) (front behind : List ℕ) → rest self.old ≡ front ++ behind
            → Spells front n → (result ≡ Ok n) × (passed self.old self.new ≡ front) }
        ensures fault { (fault : NumFault) → (result ≡ Err fault) ↔ Faults fault (rest self.old) }
        ensures still { IfErr result (λ fault.
            self.new ≡ counted self.old (looked_at fault (rest self.old))) }
    {
        let Some(&first) = self.bytes.get(self.place) else {
            return self.cut();
        };
        if first < 128 {
            self.place += 1;
            return Ok(u64::from(first));
        }
        let Some(&second) = self.bytes.get(self.place + 1) else {
            return self.cut();
        };
        if second < 128 {
            self.place += 2;
            return Ok(u64::from(first % 128) + 128 * u64::from(second));
        }
        self.long_uvarint(u64::from(first % 128) + 128 * u64::from(second % 128))
    }

    // Reads a varint that its first two bytes don't end; `value` is the sum of their groups. It is inlined, so that the cursor
    // stays in registers.
    #[inline(always)]
    fn long_uvarint(&mut self, value: u64) -> Result<u64, NumFault>
        requires { IsBegunBy 2 (rest self.old) value }
        ensures ok { IfOk result (λ n. Spells (passed self.old self.new) n) }
        ensures moved { OnOk result (IsMoved self.old self.new) }
        ensures fault { (fault : NumFault) → (result ≡ Err fault) ↔ Faults fault (rest self.old) }
        ensures still { IfErr result (λ fault.
            self.new ≡ counted self.old (looked_at fault (rest self.old))) }
    {
        let bytes = &self.bytes[self.place..];
        match decode(bytes, value) {
            Ok((value, len)) => {
                self.place += len;
                Ok(value)
            }
            Err(fault) => {
                let looked_at = match fault {
                    NumFault::Cut => bytes.len(),
                    NumFault::Long => 10,
                };
                self.look_at(looked_at);
                Err(fault)
            }
        }
    }

    // The fault of bytes that end before a varint does: all of them are counted.
    #[cold]
    fn cut(&mut self) -> Result<u64, NumFault>
        requires { IsCut (rest self.old) }
        ensures cut { result ≡ Err Cut }
        ensures fault { (fault : NumFault) → (result ≡ Err fault) ↔ Faults fault (rest self.old) }
        ensures still { self.new ≡ counted self.old (length (rest self.old)) }
    {
        self.look_at(self.bytes[self.place..].len());
        Err(NumFault::Cut)
    }

    // Counts bytes after the place.
    #[inline(always)]
    fn look_at(&mut self, many: usize)
        ensures { self.new ≡ counted self.old many }
    {
        self.counted_before = self.counted_before.saturating_add(many as u64);
    }

    /// Reads the signed varint at the place: an unsigned one, decoded by zigzag (TWKB specification, "ZigZag Encode").
    ///
    /// After a fault the place is unchanged, and the bytes looked at are counted.
    #[inline(always)]
    pub fn svarint(&mut self) -> Result<i64, NumFault>
        ensures ok { IfOk result (λ z. IsSigned z (passed self.old self.new)) }
        ensures moved { OnOk result (IsMoved self.old self.new) }
        ensures complete { (z : ℤ) (front behind : List ℕ) → rest self.old ≡ front ++ behind
            → IsSigned z front → (result ≡ Ok z) × (passed self.old self.new ≡ front) }
        ensures fault { (fault : NumFault) → (result ≡ Err fault) ↔ Faults fault (rest self.old) }
        ensures still { IfErr result (λ fault.
            self.new ≡ counted self.old (looked_at fault (rest self.old))) }
    {
        Ok(unzigzag(self.uvarint()?))
    }

    // Moves past at most `many` varints without decoding them, and returns how many it passed. It finds their ends in words of
    // eight bytes, as `first_varints` says, so each varint that it passes takes at most seven bytes. A result less than `many` tells
    // something of bytes that aren't counted, so this isn't for callers outside.
    #[inline(always)]
    fn pass_varints(&mut self, many: u64) -> u64
        ensures few { result ≤ many }
        ensures passed { SpellsMany (passed self.old self.new) result }
        ensures moved { IsMoved self.old self.new }
    {
        let first = first_varints(&self.bytes[self.place..], many);
        self.place += first.size;
        first.many
    }
}

mod lanes;
mod numbers;
mod pages;
mod points;
#[cfg(test)]
mod tests;

pub use pages::Prefetch;
pub use points::TakePoints;
