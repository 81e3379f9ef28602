//! The parts of a body: points, lines and polygons. All are read here, each by a [`PointReader`]: an audit reads them by an
//! `ExtentReader`, and by a `Walk` to find a malformed field, and a skim reads them by a `CertifiedWalk`. Used by `shape`.
ghost use Rattle.std.specs.Prelude.{◌≡◌, ◌⊎◌, ℕ, List, flat_map};
ghost use Rattle.twkb_head.specs.declared.kinds.Kind.TheVariants.{Polygon, MultiPolygon};
ghost use Rattle.twkb_head.specs.Shared.Reader.{Reader, many_at};
ghost use Rattle.twkb_body.specs.Geometry.{PointValue, points_of};
ghost use Rattle.twkb_body.specs.Devices.Body.{add, sums};
ghost use Rattle.twkb_body.specs.Devices.BodyReader.{point_at, prefixed_at, lines_at, many_parts_at};
ghost use Rattle.twkb_body.specs.Devices.PointReader.{IsReady, ReadsOrEnds};

use crate::point_reader::PointReader;
use crate::varints::take_number;
use twkb_head::Kind;
use twkb_num::Cursor;

/// Reads `count` points, lines or polygons, by the kind. Of a collection it reads nothing. `L` says whether the loop over lines is
/// inlined.
#[inline(always)]
pub fn take_parts<L: LineLoop, R: PointReader>(
    cursor: &mut Cursor,
    kind: Kind,
    count: u64,
    reader: &mut R,
) -> Result<(), R::Fault>
    requires ready { IsReady (R.stands reader.old) R.trusts (many_parts_at kind count) cursor.old }
    ensures { ReadsOrEnds (many_parts_at kind count) points_of R.step R.trusts R.ends R.tells (R.stands reader.old)
        (R.stands reader.new) result cursor.old cursor.new }
{
    match kind {
        Kind::Point | Kind::MultiPoint => OutOfLine(Run).take(cursor, count, reader),
        Kind::LineString | Kind::MultiLineString => L::take(cursor, count, reader),
        Kind::Polygon | Kind::MultiPolygon => take_polygons(cursor, kind, count, reader),
        Kind::GeometryCollection => Ok(()),
    }
}

/// Reads `count` polygons.
#[inline(always)]
fn take_polygons<R: PointReader>(
    cursor: &mut Cursor,
    kind: Kind,
    count: u64,
    reader: &mut R,
) -> Result<(), R::Fault>
    requires kind { (kind ≡ Polygon) ⊎ (kind ≡ MultiPolygon) }
    requires ready { IsReady (R.stands reader.old) R.trusts (many_parts_at kind count) cursor.old }
    ensures { ReadsOrEnds (many_parts_at kind count) points_of R.step R.trusts R.ends R.tells (R.stands reader.old)
        (R.stands reader.new) result cursor.old cursor.new }
{
    let rings = OutOfLine(Prefixed(Run));
    OutOfLine(Prefixed(rings)).take(cursor, count, reader)
}

/// Whether the loop over lines is inlined: it is in skims and in audits, but not where a malformed field is looked for.
pub trait LineLoop {
    /// Reads `count` lines.
    fn take<R: PointReader>(cursor: &mut Cursor, count: u64, reader: &mut R) -> Result<(), R::Fault>
        requires ready { IsReady (R.stands reader.old) R.trusts (lines_at count) cursor.old }
        ensures { ReadsOrEnds (lines_at count) (λ lines. flat_map (λ line. line) lines) R.step R.trusts R.ends R.tells
            (R.stands reader.old) (R.stands reader.new) result cursor.old cursor.new };
}

/// Lines are read by code that is inlined.
pub struct LinesInlined;

/// Lines are read by a call.
pub struct LinesCalled;

impl LineLoop for LinesInlined {
    #[inline(always)]
    fn take<R: PointReader>(
        cursor: &mut Cursor,
        count: u64,
        reader: &mut R,
    ) -> Result<(), R::Fault> {
        Prefixed(Run).take(cursor, count, reader)
    }
}

impl LineLoop for LinesCalled {
    #[inline(never)]
    fn take<R: PointReader>(
        cursor: &mut Cursor,
        count: u64,
        reader: &mut R,
    ) -> Result<(), R::Fault> {
        Prefixed(Run).take(cursor, count, reader)
    }
}

/// Values of which a body has many: points, lists of points, or lists of such lists. `R` reads the points.
trait Values<R: PointReader> {
    /// The type of a value.
    ghost Value: { Type 0 };

    /// The reader of a value, by the number of axes and the last point before the value.
    ghost each: { ℕ → PointValue → Reader Value };

    /// The sums after a value.
    ghost after: { PointValue → Value → PointValue };

    /// The points of some values, one after another.
    ghost points_in: { List Value → List PointValue };

    /// Reads `count` values.
    fn take(&self, cursor: &mut Cursor, count: u64, reader: &mut R) -> Result<(), R::Fault>
        requires ready { IsReady (R.stands reader.old) R.trusts (λ axes. many_at count after (each axes)) cursor.old }
        ensures { ReadsOrEnds (λ axes. many_at count after (each axes)) points_in R.step R.trusts R.ends R.tells
            (R.stands reader.old) (R.stands reader.new) result cursor.old cursor.new };
}

/// A run of points. No count precedes a point.
#[derive(Drop)]
struct Run;

impl<R: PointReader> Values<R> for Run {
    ghost Value = { PointValue };

    ghost each = { point_at };

    ghost after = { add };

    ghost points_in = { λ points. points };

    /// Reads all points as one run.
    #[inline(always)]
    fn take(&self, cursor: &mut Cursor, count: u64, reader: &mut R) -> Result<(), R::Fault> {
        reader.take_points(cursor, count)
    }
}

/// Values that are read out of line, because the compiler inlines nothing more into a very large function.
#[derive(Drop)]
struct OutOfLine<V>(V);

impl<R: PointReader, V: Values<R>> Values<R> for OutOfLine<V> {
    ghost Value = { V.Value };

    ghost each = { V.each };

    ghost after = { V.after };

    ghost points_in = { V.points_in };

    #[inline(never)]
    fn take(&self, cursor: &mut Cursor, count: u64, reader: &mut R) -> Result<(), R::Fault> {
        self.0.take(cursor, count, reader)
    }
}

/// Lists of values, each after its length: lines and rings are lists of points, and polygons are lists of rings.
#[derive(Drop)]
struct Prefixed<V>(V);

impl<R: PointReader, V: Values<R>> Values<R> for Prefixed<V> {
    ghost Value = { List V.Value };

    ghost each = { λ axes. prefixed_at V.after (V.each axes) };

    ghost after = { λ s values. sums s (V.points_in values) };

    ghost points_in = { λ lists. flat_map V.points_in lists };

    /// Reads `count` lists: of each one its length, and then that number of values.
    #[inline(always)]
    fn take(&self, cursor: &mut Cursor, count: u64, reader: &mut R) -> Result<(), R::Fault> {
        for _ in 0..count {
            match take_number(cursor) {
                Ok(values) => self.0.take(cursor, values, reader)?,
                Err(malformed) => return Err(R::fault_of(malformed)),
            }
        }
        Ok(())
    }
}
