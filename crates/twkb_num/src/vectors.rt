//! Varints at the front of 16 or 32 bytes, read into the lanes of vectors. Used by `cursor/lanes`.
ghost use Rattle.std.specs.Prelude.{◌≡◌, ◌+◌, ◌*◌, ◌<◌, ◌≤◌, ◌/◌, ◌%◌, ◌^◌, ℕ, ℤ, List, [], ◌∷◌, map, slice_index, take, All};
ghost use Rattle.std.specs.Int.{w16, w32, cast_signed};
ghost use Rattle.twkb_num.specs.Varint.{zigzag_value, SpellsAll, SpellsAllSigned, IsShort, IsBrief};
ghost use Rattle.twkb_num.specs.Numbers.{points_in};
ghost use Rattle.twkb_num.specs.Devices.Lanes.{byte_or_zero, IsTops, IsFlag, values};

use crate::tables::{
    first_wide_len, narrow_len, narrow_places, three_narrow_len, wide_len, wide_places,
};
use std::simd::prelude::*;

/// The first numbers of sixteen bytes, with the bytes of each in a lane, whose groups of seven bits aren't pushed together yet, and
/// the length of all spellings together. A length of 128: one is too long.
#[derive(Clone, Copy)]
struct Unpacked {
    lanes: u8x16,
    len: usize,
}

/// Four signed numbers, or two in the first two lanes, and the length of all spellings together. 128 or more: one is too long.
#[derive(Clone, Copy)]
pub struct Wide {
    pub lanes: u32x4,
    pub len: usize,
}

/// Eight signed numbers, and the length of all spellings together. 128 or more: one is too long.
#[derive(Clone, Copy)]
pub struct Narrow {
    pub lanes: u16x8,
    pub len: usize,
}

/// The four numbers that the front of the bytes spells, if each takes at most four bytes.
#[inline(always)]
pub fn wide_four(bytes: &[u8; 32]) -> Wide
    ensures few { result.len < 128 → result.len ≤ 16 }
    ensures spelled { result.len < 128
        → SpellsAllSigned (take result.len bytes.now) (map (cast_signed w32) result.lanes) }
    ensures short { All IsShort (map (cast_signed w32) result.lanes) }
{
    let v = u8x16::from_slice(&bytes[0..16]);
    let tops = continuation_bits(v);
    let first = wide_two(v, (tops % 256) as usize);
    let start = first.len % 16;
    let second = wide_two(
        u8x16::from_slice(&bytes[start..start + 16]),
        bits_from(tops, first.len),
    );
    Wide {
        lanes: meant_wide(low_halves(first.lanes, second.lanes)),
        len: first.len + second.len,
    }
}

/// The two numbers that the front of the bytes spells, in the first two lanes, if each takes at most four bytes.
#[inline(always)]
pub fn wide_pair(bytes: &[u8; 16]) -> Wide
    ensures few { result.len < 128 → result.len ≤ 8 }
    ensures spelled { result.len < 128
        → SpellsAllSigned (take result.len bytes.now) (take 2 (map (cast_signed w32) result.lanes)) }
    ensures short { All IsShort (map (cast_signed w32) result.lanes) }
{
    let v = u8x16::from_slice(bytes);
    let both = wide_two(v, (continuation_bits(v) % 256) as usize);
    Wide {
        lanes: meant_wide(both.lanes),
        len: both.len,
    }
}

/// The three numbers that the front of the bytes spells, in the first three lanes, if each takes at most four bytes.
#[inline(always)]
pub fn wide_three(bytes: &[u8; 32]) -> Wide
    ensures few { result.len < 128 → result.len ≤ 16 }
    ensures spelled { result.len < 128
        → SpellsAllSigned (take result.len bytes.now) (take 3 (map (cast_signed w32) result.lanes)) }
    ensures short { All IsShort (map (cast_signed w32) result.lanes) }
{
    let v = u8x16::from_slice(&bytes[0..16]);
    let tops = continuation_bits(v);
    let first = wide_two(v, (tops % 256) as usize);
    let behind = first.len % 16;
    let third = wide_one(
        u8x16::from_slice(&bytes[behind..behind + 16]),
        bits_from(tops, first.len),
    );
    Wide {
        lanes: meant_wide(low_halves(first.lanes, third.lanes)),
        len: first.len + third.len,
    }
}

/// The eight numbers that the front of the bytes spells, if each takes at most two bytes. The lowest bits of `tops` are the
/// continuation bits of the first sixteen bytes.
#[inline(always)]
pub fn narrow_eight(bytes: &[u8; 32], tops: u64) -> Narrow
    requires { IsTops 16 tops bytes.now }
    ensures few { result.len < 128 → result.len ≤ 16 }
    ensures spelled { result.len < 128
        → SpellsAllSigned (take result.len bytes.now) (map (cast_signed w16) result.lanes) }
    ensures brief { All IsBrief (map (cast_signed w16) result.lanes) }
{
    let v = u8x16::from_slice(&bytes[0..16]);
    let first = narrow_four(v, (tops % 256) as usize);
    let start = first.len % 16;
    let rest = bits_from(tops, first.len);
    let second = narrow_four(u8x16::from_slice(&bytes[start..start + 16]), rest);
    let len = first.len + second.len;
    Narrow {
        lanes: meant_narrow(low_halves(first.lanes, second.lanes)),
        len,
    }
}

/// The six numbers that the front of the bytes spells, three in each half of the lanes, if each takes at most two bytes. The last lane
/// of a half means nothing.
#[inline(always)]
pub fn narrow_six(bytes: &[u8; 32]) -> Narrow
    ensures few { result.len < 128 → result.len ≤ 16 }
    ensures spelled { result.len < 128
        → SpellsAllSigned (take result.len bytes.now) (points_in 3 (map (cast_signed w16) result.lanes)) }
    ensures brief { All IsBrief (map (cast_signed w16) result.lanes) }
{
    let v = u8x16::from_slice(&bytes[0..16]);
    let tops = continuation_bits(v);
    let first = narrow_three(v, (tops % 256) as usize);
    let behind = first.len % 16;
    let other = narrow_three(
        u8x16::from_slice(&bytes[behind..behind + 16]),
        bits_from(tops, first.len),
    );
    Narrow {
        lanes: meant_narrow(low_halves(first.lanes, other.lanes)),
        len: first.len + other.len,
    }
}

/// Two numbers of at most four bytes, by the continuation bits of the first eight bytes.
#[inline(always)]
fn wide_two(v: u8x16, tops: usize) -> Unpacked
    requires few { tops < 256 }
    requires tops { IsTops 8 tops v }
    ensures flag { IsFlag result.len }
    ensures spelled { result.len < 128 → SpellsAll (take result.len v) (values 4 2 result.lanes 0) }
{
    Unpacked {
        lanes: picked(v, wide_places(tops)),
        len: wide_len(tops) as usize,
    }
}

/// Four numbers of at most two bytes, by the continuation bits of the first eight bytes.
#[inline(always)]
fn narrow_four(v: u8x16, tops: usize) -> Unpacked
    requires few { tops < 256 }
    requires tops { IsTops 8 tops v }
    ensures flag { IsFlag result.len }
    ensures spelled { result.len < 128 → SpellsAll (take result.len v) (values 2 4 result.lanes 0) }
{
    Unpacked {
        lanes: picked(v, narrow_places(tops)),
        len: narrow_len(tops) as usize,
    }
}

/// The first of two numbers of at most four bytes: the length is its own, and the second lane means nothing.
#[inline(always)]
fn wide_one(v: u8x16, tops: usize) -> Unpacked
    requires few { tops < 256 }
    requires tops { IsTops 8 tops v }
    ensures flag { IsFlag result.len }
    ensures spelled { result.len < 128 → SpellsAll (take result.len v) (values 4 1 result.lanes 0) }
{
    Unpacked {
        lanes: picked(v, wide_places(tops)),
        len: first_wide_len(tops) as usize,
    }
}

/// Three of four numbers of at most two bytes: the length is theirs, and the fourth lane means nothing.
#[inline(always)]
fn narrow_three(v: u8x16, tops: usize) -> Unpacked
    requires few { tops < 256 }
    requires tops { IsTops 8 tops v }
    ensures flag { IsFlag result.len }
    ensures spelled { result.len < 128 → SpellsAll (take result.len v) (values 2 3 result.lanes 0) }
{
    Unpacked {
        lanes: picked(v, narrow_places(tops)),
        len: three_narrow_len(tops) as usize,
    }
}

/// The continuation bits of the first sixteen bytes.
#[inline(always)]
pub fn tops_of_16(bytes: &[u8; 32]) -> u64
    ensures { IsTops 16 result bytes.now }
{
    continuation_bits(u8x16::from_slice(&bytes[0..16]))
}

/// Bit i is the top bit of byte i, which is set where a varint goes on.
#[inline(always)]
fn continuation_bits(v: u8x16) -> u64
    ensures { IsTops 16 result v }
{
    v.simd_ge(u8x16::splat(128)).to_bitmask() % 65536
}

/// The continuation bits of the eight bytes after the first `len`.
#[inline(always)]
fn bits_from(tops: u64, len: usize) -> usize
    requires { IsFlag len }
    ensures few { result < 256 }
    ensures moved { result ≡ tops / 2 ^ (len % 16) % 256 }
{
    ((tops >> (len % 64)) % 256) as usize
}

/// The bytes at these places, and zero at a place from 128 on.
#[inline(always)]
fn picked(v: u8x16, places: u8x16) -> u8x16
    ensures { (i : ℕ) → i < 16 → slice_index result i ≡ byte_or_zero v (slice_index places i) }
{
    // These are the bits of a place that `pshufb` reads, so the compiler makes no comparison.
    v.swizzle_dyn(places & u8x16::splat(0x8f))
}

/// The first eight bytes of `lo`, and then the first eight of `hi`.
#[inline(always)]
fn low_halves(lo: u8x16, hi: u8x16) -> u8x16
    ensures low { (i : ℕ) → i < 8 → slice_index result i ≡ slice_index lo i }
    ensures high { (i : ℕ) → i < 8 → slice_index result (8 + i) ≡ slice_index hi i }
{
    lo.shuffle(hi, [0, 1, 2, 3, 4, 5, 6, 7, 16, 17, 18, 19, 20, 21, 22, 23])
}

/// For each two bytes, twice the number that their groups of seven bits make.
#[inline(always)]
fn doubled_numbers(groups: u8x16) -> u16x8
    ensures { result ≡ map (λ n. 2 * n) (values 2 8 groups 0) }
{
    let lanes = u16x8::from_le_bytes(groups);
    // Adding the lower group once more doubles it, which moves it up next to the upper group.
    (lanes & u16x8::splat(0x7f7f)) + (lanes & u16x8::splat(0x7f))
}

/// What the groups of each lane's four bytes mean by zigzag, in two's complement.
#[inline(always)]
fn meant_wide(groups: u8x16) -> u32x4
    ensures meaning { map (cast_signed w32) result ≡ map zigzag_value (values 4 4 groups 0) }
    ensures short { All IsShort (map (cast_signed w32) result) }
{
    let numbers = doubled_numbers(groups) >> u16x8::splat(1);
    // The lower 14 bits move up by two, next to the upper 14, so each lane of 32 bits is four times its number.
    let placed = numbers << u16x8::from_array([2, 0, 2, 0, 2, 0, 2, 0]);
    let joined = u32x4::from_le_bytes(placed.to_le_bytes());
    let half = joined >> u32x4::splat(3);
    let odd = (joined & u32x4::splat(4)).simd_eq(u32x4::splat(4));
    odd.select(!half, half)
}

/// What the groups of each lane's two bytes mean by zigzag, in two's complement.
#[inline(always)]
fn meant_narrow(groups: u8x16) -> u16x8
    ensures meaning { map (cast_signed w16) result ≡ map zigzag_value (values 2 8 groups 0) }
    ensures brief { All IsBrief (map (cast_signed w16) result) }
{
    let twice = doubled_numbers(groups);
    let half = twice >> u16x8::splat(2);
    // This bit is also the lowest of each lane of `groups`, but testing it there takes one instruction more.
    let odd = (twice & u16x8::splat(2)).simd_eq(u16x8::splat(2));
    odd.select(!half, half)
}
