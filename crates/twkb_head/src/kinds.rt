//! [`Kind`], the seven types of a geometry, and how deep each may be.
//! Used by other crates, and here by `bits`, `field_readers`, `header`, `raw` and `read`.
ghost use Rattle.std.specs.Prelude.{◌≡◌, ◌%◌, ◌≤◌, ◌-◌, IfOk, IfErr};
ghost use Rattle.twkb_head.specs.BegunHeader.{is_collection, deepest};
ghost use Rattle.twkb_head.specs.Header.{is_multi, code_of};
ghost use Rattle.twkb_head.specs.Shared.Plan.{kind_of_code, judge_kind};

use crate::refusal::Why;

/// The type of a geometry (TWKB specification, "Type & Precision").
#[derive(Clone, Copy, Debug, PartialEq, Eq)]
pub enum Kind {
    /// One point.
    Point,
    /// Points in a row.
    LineString,
    /// Rings, each of points in a row.
    Polygon,
    /// A list of points.
    MultiPoint,
    /// A list of lines.
    MultiLineString,
    /// A list of polygons.
    MultiPolygon,
    /// A list of geometries, each with a header of its own.
    GeometryCollection,
}

impl Kind {
    /// The number of the type, from 1 to 7 (TWKB specification, "Type & Precision").
    #[inline(always)]
    pub fn code(self) -> u8
        ensures { result ≡ code_of self }
    {
        match self {
            Kind::Point => 1,
            Kind::LineString => 2,
            Kind::Polygon => 3,
            Kind::MultiPoint => 4,
            Kind::MultiLineString => 5,
            Kind::MultiPolygon => 6,
            Kind::GeometryCollection => 7,
        }
    }

    /// Whether the body is a list, of parts or of members: types 4 to 7.
    #[inline(always)]
    pub fn is_multi(self) -> bool
        ensures { result ≡ is_multi self }
    {
        !matches!(self, Kind::Point | Kind::LineString | Kind::Polygon)
    }

    /// Whether its members have headers of their own.
    #[inline(always)]
    pub fn is_collection(self) -> bool
        ensures { result ≡ is_collection self }
    {
        matches!(self, Kind::GeometryCollection)
    }
}

/// The greatest depth of a geometry. A blob has depth 1, and a member of a collection one more than the collection. The greatest
/// depth of a collection is one less (this project's choice).
pub const DEEPEST: u8 = 64;

/// The kind that a type byte names, if it is allowed at `depth`.
#[inline(always)]
pub fn kind_at(byte: u8, depth: u8) -> Result<Kind, Why>
    requires { depth ≤ deepest }
    ensures kind { IfOk result (λ kind. kind_of_code (byte % 16) ≡ Some kind) }
    ensures allowed { IfOk result (λ kind. judge_kind (deepest - depth) (Some kind) ≡ None) }
    ensures refused { IfErr result (λ why. judge_kind (deepest - depth) (kind_of_code (byte % 16)) ≡ Some why) }
{
    match kind_named(byte) {
        Some(Kind::GeometryCollection) if depth == DEEPEST => Err(Why::Depth),
        Some(kind) => Ok(kind),
        None => Err(Why::Kind),
    }
}

/// The kinds by their codes, from 1 on. They are looked up, since the branches of a `match` are guessed wrong where kinds
/// change from geometry to geometry.
static KINDS: [Kind; 7] = [
    Kind::Point,
    Kind::LineString,
    Kind::Polygon,
    Kind::MultiPoint,
    Kind::MultiLineString,
    Kind::MultiPolygon,
    Kind::GeometryCollection,
];

/// The kind that the low four bits of a type byte name; 0 and 8 to 15 name none.
#[inline(always)]
fn kind_named(byte: u8) -> Option<Kind>
    ensures { result ≡ kind_of_code (byte % 16) }
{
    match byte % 16 {
        code @ 1..=7 => Some(KINDS[usize::from(code - 1)]),
        _ => None,
    }
}
