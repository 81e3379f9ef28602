//! Where varints end, found in words of eight bytes. Used by `cursor`.
ghost use Rattle.std.specs.Prelude.{◌≡◌, ◌↔◌, ◌+◌, ◌*◌, ◌-◌, ◌≤◌, ◌<◌, ◌^◌, IsTrue};
ghost use Rattle.twkb_num.specs.Devices.Ends.{ended, ends_to, eight_bytes, IsEnd, IsLastEnd, IsFrontOf};

/// The top bit of each byte of a word, which is set where a varint goes on.
const TOPS: u64 = 0x8080_8080_8080_8080;

/// One in each byte of a word.
const ONES: u64 = 0x0101_0101_0101_0101;

/// The first seven bytes of a word, and the first four.
const SEVEN: u64 = 0x00ff_ffff_ffff_ffff;

const FOUR: u64 = 0xffff_ffff;

/// Varints at the front of bytes: how many, and how many bytes they take.
#[derive(Clone, Copy)]
pub struct FirstVarints {
    pub many: u64,
    pub size: usize,
}

/// Finds the first varints, at most `many`, in words of eight bytes. It stops where fewer than eight bytes are left;
/// before the first word if no varint ends in its first seven bytes, and before a later one if none ends in its first half; and before
/// a word if none ends in its second half, unless the last varint wanted ends in the word. So each varint takes at most seven bytes. Ends are counted, and no
/// step waits for a varint's length.
#[inline(always)]
pub fn first_varints(bytes: &[u8], many: u64) -> FirstVarints
    ensures few { result.many ≤ many }
    ensures front { IsFrontOf bytes.now result.many result.size }
{
    let mut left = many;
    let mut done = 0;
    // A varint that goes on from the word before has at most three bytes there, so later words need an end in the first half.
    let mut low = SEVEN;
    while 0 < left {
        let Some(word) = bytes[done..].first_chunk::<8>() else {
            break;
        };
        if !has_end_below(word, low) {
            break;
        }
        let here = count_of_ends(word);
        if left <= here {
            return FirstVarints {
                many,
                size: done + end_of(word, left),
            };
        }
        if !has_high_end(word) {
            break;
        }
        left -= here;
        done += 8;
        low = FOUR;
    }
    FirstVarints {
        many: many - left,
        size: last_end(&bytes[..done]),
    }
}

/// The number of bytes up to the last one that ends a varint, or 0 if none does.
#[cold]
#[inline(never)]
fn last_end(bytes: &[u8]) -> usize
    ensures { IsLastEnd bytes.now result }
{
    let mut size = bytes.len();
    while 0 < size && 128 <= bytes[size - 1] {
        size -= 1;
    }
    size
}

/// The word with the top bit set in each byte that ends a varint, and no other bit.
#[inline(always)]
fn tops_of_ends(bytes: &[u8; 8]) -> u64
    ensures { result ≡ eight_bytes (λ k. ended bytes.now k * 128) }
{
    !u64::from_le_bytes(*bytes) & TOPS
}

/// The word whose byte k is the number of bytes up to byte k, k included, that end a varint.
#[inline(always)]
fn counts_of_ends(bytes: &[u8; 8]) -> u64
    ensures { result ≡ eight_bytes (λ k. ends_to bytes.now (k + 1)) }
{
    (tops_of_ends(bytes) >> 7).wrapping_mul(ONES)
}

/// How many of the eight bytes end a varint.
#[inline(always)]
fn count_of_ends(bytes: &[u8; 8]) -> u64
    ensures { result ≡ ends_to bytes.now 8 }
{
    u64::from(tops_of_ends(bytes).count_ones())
}

/// Whether a varint ends in the bytes that the mask `low` selects.
#[inline(always)]
fn has_end_below(bytes: &[u8; 8], low: u64) -> bool
    ensures seven { low ≡ 2 ^ 56 - 1 → IsTrue result ↔ 1 ≤ ends_to bytes.now 7 }
    ensures four { low ≡ 2 ^ 32 - 1 → IsTrue result ↔ 1 ≤ ends_to bytes.now 4 }
{
    tops_of_ends(bytes) & low != 0
}

/// Whether a varint ends in the last four bytes.
#[inline(always)]
fn has_high_end(bytes: &[u8; 8]) -> bool
    ensures { IsTrue result ↔ ends_to bytes.now 4 < ends_to bytes.now 8 }
{
    tops_of_ends(bytes) >> 32 != 0
}

/// The number of bytes up to the n-th one that ends a varint.
#[inline(always)]
fn end_of(bytes: &[u8; 8], n: u64) -> usize
    requires some { 1 ≤ n }
    requires there { n ≤ ends_to bytes.now 8 }
    ensures { IsEnd bytes.now n result }
{
    let reached = (counts_of_ends(bytes) + TOPS - n * ONES) & TOPS;
    (reached.trailing_zeros() / 8) as usize + 1
}
