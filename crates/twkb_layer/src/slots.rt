//! [`Slot`], 24 bytes of a directory: of a blob one slot says all, or four do.
//! Used by other crates, and here by `certified`, `directory`, `entry`, `placing` and `scans`.
ghost use Rattle.std.specs.Prelude.{◌≡◌, ◌%◌, ◌<◌, ◌≤◌, ◌-ℤ◌, nat_lt, pos, if◌then◌else◌, [], ◌∷◌, ◌^◌, IfSome, Some, None};
ghost use Rattle.twkb_num.specs.Units.{IsPrecision};
ghost use Rattle.twkb_head.specs.Raw.{HavePrecisions, ends_of, raw_bounds};
ghost use Rattle.twkb_layer.specs.Devices.RawWindows.{AreInner};
ghost use Rattle.twkb_layer.specs.Devices.Slots.{AreSlotsOf, entry_said};
ghost use Rattle.twkb_layer.specs.Slots.{axes_in, axis_in, ends_in, is_boxed, is_long, range_in, short_entry};
ghost use Rattle.twkb_layer.specs.Window.{is_missed};

use crate::raw_windows::RawWindows;
use twkb_head::{Axes, Fields, RawBox, RawRange};

/// How many slots a directory has for a blob at most.
pub const MOST_SLOTS: usize = 4;

/// The first offset for which one slot has no place.
const OFFSET_LIMIT: usize = 1 << 58;

/// 2^32, which divides a number of 64 bits into its halves.
const HALF: u64 = 1 << 32;

/// The bit of a slot's word that says that the blob has a box.
const BOXED: u64 = 16;
/// The bit of a slot's word that says that the blob takes four slots.
const LONG: u64 = 32;
/// The word of a slot of Z or M if there is no such axis.
const NO_AXIS: u64 = 8;

/// A slot of a directory.
///
/// A blob takes one slot if it has no box, or a box in X and Y alone whose ends fit 32 bits. A scan spends its time on reading
/// memory, and nearly all blobs are such. Any other blob takes four slots: one for each axis of its box, as the header spells it.
#[repr(C)]
#[derive(Clone, Copy)]
pub struct Slot {
    /// In the first slot of a blob, from the lowest bit on: four bits of the precision of X and Y, plus 8; whether there is a box;
    /// whether the blob takes four slots; and if it takes one, its offset. Of four slots, the second has the offset, and the third
    /// and the fourth have the precisions of Z and M, or [`NO_AXIS`].
    pub(crate) word: u64,
    /// The least end in X, and above it the greatest one; of four slots, the minimum of a range.
    first: u64,
    /// The least end in Y, and above it the greatest one; of four slots, the extent of a range.
    second: u64,
}

impl Slot {
    /// The slot of a blob that begins at the offset with this header. `None` if the blob takes four.
    #[inline(always)]
    pub(crate) fn short(offset: usize, header: &Fields) -> Option<Slot>
        requires { HavePrecisions header.now.axes }
        ensures { IfSome result (λ slot. AreSlotsOf (entry_said offset header.now) (slot ∷ [])) }
    {
        if offset >= OFFSET_LIMIT {
            return None;
        }
        let word = code_of(header.axes.xy) + 2 * LONG * offset as u64;
        match &header.bounds {
            None => Some(Slot {
                word,
                first: 0,
                second: 0,
            }),
            Some(bounds) => {
                if !header.axes.is_flat() {
                    return None;
                }
                Some(Slot {
                    word: word + BOXED,
                    first: short_ends(&bounds.x)?,
                    second: short_ends(&bounds.y)?,
                })
            }
        }
    }

    /// The four slots of a blob that begins at the offset with this header.
    pub(crate) fn long(offset: usize, header: &Fields) -> [Slot; MOST_SLOTS]
        requires { HavePrecisions header.now.axes }
        ensures { AreSlotsOf (entry_said offset header.now) result }
    {
        match &header.bounds {
            None => {
                let nothing = RawRange::from((0, 0));
                four(offset, header.axes, false, RawBox::flat(nothing, nothing))
            }
            Some(bounds) => four(offset, header.axes, true, *bounds),
        }
    }

    /// A slot of a range, one of four.
    #[inline(always)]
    fn of(word: u64, range: RawRange) -> Slot
        ensures word { result.word ≡ word }
        ensures range { range_in result ≡ range }
    {
        Slot {
            word,
            first: range.minimum.cast_unsigned(),
            second: range.extent.cast_unsigned(),
        }
    }

    /// Whether it is the first of four slots of a blob.
    #[inline(always)]
    pub(crate) fn is_long(&self) -> bool
        ensures { result ≡ is_long self.now }
    {
        self.word / LONG % 2 == 1
    }

    /// Whether the blob has a box.
    #[inline(always)]
    pub(crate) fn is_boxed(&self) -> bool
        ensures { result ≡ is_boxed self.now }
    {
        self.word / BOXED % 2 == 1
    }

    /// The precision of X and Y, plus 8.
    #[inline(always)]
    fn code(&self) -> usize
        ensures value { result ≡ self.now.word % 16 }
        ensures few { result < 16 }
    {
        (self.word % 16) as usize
    }

    /// Where the blob begins, if it takes one slot.
    #[inline(always)]
    pub(crate) fn offset(&self) -> usize
        ensures { result ≡ (short_entry self.now).offset }
    {
        (self.word / (2 * LONG)) as usize
    }

    /// Whether the blob has a box that misses the window, if it takes one slot.
    #[inline(always)]
    pub(crate) fn misses(&self, windows: &RawWindows) -> bool
        ensures { result ≡ is_missed windows.now (short_entry self.now).bounds }
    {
        self.is_boxed()
            && windows
                .at(self.code())
                .misses(ends(self.first), ends(self.second))
    }

    /// The range of an axis, in one of four slots.
    #[inline(always)]
    pub(crate) fn range(&self) -> RawRange
        ensures { result ≡ range_in self.now }
    {
        RawRange::from((self.first.cast_signed(), self.second.cast_signed()))
    }

    /// The precision of Z or M, in the third or the fourth of four slots.
    #[inline(always)]
    fn axis(&self) -> Option<u8>
        ensures { result ≡ axis_in self.now }
    {
        if self.word < NO_AXIS {
            Some(self.word as u8)
        } else {
            None
        }
    }

    /// The precisions of a blob's axes, by the first, the third and the fourth of its four slots.
    #[inline(always)]
    pub(crate) fn axes(&self, third: &Slot, fourth: &Slot) -> Axes
        ensures value { result ≡ axes_in self.now third.now fourth.now }
        ensures precisions { HavePrecisions result }
    {
        Axes {
            xy: self.code() as i8 - 8,
            z: third.axis(),
            m: fourth.axis(),
        }
    }
}

/// The four slots of a blob that begins at the offset, and whose header has these axes and this box, if it has one.
#[inline(always)]
fn four(offset: usize, axes: Axes, is_boxed: bool, bounds: RawBox) -> [Slot; MOST_SLOTS]
    requires { HavePrecisions axes }
    ensures { AreSlotsOf (record {
      offset = offset;
      bounds = if is_boxed then Some (raw_bounds axes.xy axes.z axes.m bounds) else None;
    }) result }
{
    let word = code_of(axes.xy) + BOXED * u64::from(is_boxed) + LONG;
    [
        Slot::of(word, bounds.x),
        Slot::of(offset as u64, bounds.y),
        Slot::of(axis_word(axes.z), bounds.third),
        Slot::of(axis_word(axes.m), bounds.fourth),
    ]
}

/// The precision of X and Y, plus 8.
#[inline(always)]
fn code_of(xy: i8) -> u64
    requires { IsPrecision xy }
    ensures value { pos result -ℤ pos 8 ≡ xy }
    ensures few { result < 16 }
{
    (xy + 8) as u64
}

/// The word of a slot of Z or M.
#[inline(always)]
fn axis_word(precision: Option<u8>) -> u64
    requires { IfSome precision (λ p. p ≤ 7) }
    ensures { (if nat_lt result 8 then Some result else None) ≡ precision }
{
    match precision {
        Some(precision) => u64::from(precision),
        None => NO_AXIS,
    }
}

/// The ends of a range in one number, if both fit 32 bits.
#[inline(always)]
fn short_ends(range: &RawRange) -> Option<u64>
    ensures { IfSome result (λ number. ends_in number ≡ ends_of range.now) }
{
    let number = low(range.minimum) + HALF * low(range.minimum.wrapping_add(range.extent));
    // What was kept is compared, so that neither a sum nor its bits have to be judged before.
    let (least, greatest) = ends(number);
    if least == range.minimum && greatest - least == range.extent {
        Some(number)
    } else {
        None
    }
}

/// The lowest 32 bits of a number.
#[inline(always)]
fn low(number: i64) -> u64
    ensures { result < 2 ^ 32 }
{
    number.cast_unsigned() % HALF
}

/// Two ends of 32 bits, from one number.
#[inline(always)]
fn ends(number: u64) -> (i64, i64)
    ensures value { result ≡ ends_in number }
    ensures inner { AreInner result }
{
    let least = ((number % HALF) as u32).cast_signed();
    let greatest = ((number / HALF) as u32).cast_signed();
    (i64::from(least), i64::from(greatest))
}

// A slot of a directory takes 24 bytes, as the documentation says.
const _: () = prove!(size_of::<Slot>() <= 24);
