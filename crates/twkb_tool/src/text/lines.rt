//! The lines of the text, each pushed piece by piece.
ghost use Rattle.std.specs.Prelude.{◌≡◌, ℕ, ◌≤◌, ◌++◌, List, OnOk};
ghost use Rattle.twkb_tool.specs.Output.{ok_line, row_line, hit_line, end_line, no_line, word_of, name_of, yes_no};

use itoa::{Buffer, Integer};
use std::alloc::{AllocError, Allocator};
use twkb_layer::{Hit, Kind, Row};

/// Pushes the line for a refused file.
#[tactic(auto, unfolding(crate::specs::Output::no_line))]
pub fn push_no_line<A: Allocator>(
    out: &mut Vec<u8, A>,
    blob: usize,
    offset: usize,
    kind: u8,
) -> Result<(), AllocError>
    requires { (1 ≤ kind) × (kind ≤ 9) }
    ensures { OnOk result ((word : List ℕ) × (word_of kind ≡ Some word)
        × (out.new.items ≡ out.old.items ++ no_line blob offset word)) }
{
    push_number(out, "no blob=", blob)?;
    push_number(out, " offset=", offset)?;
    push_word(out, " kind=", word_of(kind))?;
    push_text(out, "\n")
}

/// Pushes the line that `check` prints for a certified layer.
#[tactic(auto, unfolding(crate::specs::Output::ok_line))]
pub fn push_ok_line<A: Allocator>(
    out: &mut Vec<u8, A>,
    blobs: usize,
    vertices: usize,
) -> Result<(), AllocError>
    ensures { OnOk result (out.new.items ≡ out.old.items ++ ok_line blobs vertices) }
{
    push_number(out, "ok blobs=", blobs)?;
    push_number(out, " vertices=", vertices)?;
    push_text(out, "\n")
}

/// Pushes the line of a blob in a list.
#[tactic(auto, unfolding(crate::specs::Output::row_line))]
pub fn push_row_line<A: Allocator>(out: &mut Vec<u8, A>, row: Row) -> Result<(), AllocError>
    ensures { OnOk result (out.new.items ≡ out.old.items ++ row_line row) }
{
    push_number(out, "blob=", row.blob)?;
    push_number(out, " offset=", row.offset)?;
    push_number(out, " bytes=", row.bytes)?;
    push_word(out, " type=", name_of(row.kind))?;
    push_number(out, " precision=", row.precision)?;
    push_number(out, " vertices=", row.vertices)?;
    push_word(out, " size=", yes_no(row.has_size))?;
    push_word(out, " box=", yes_no(row.has_box))?;
    push_text(out, "\n")
}

/// Pushes the line of a blob that has a vertex inside the window.
#[tactic(auto, unfolding(crate::specs::Output::hit_line))]
pub fn push_hit_line<A: Allocator>(out: &mut Vec<u8, A>, hit: &Hit) -> Result<(), AllocError>
    ensures { OnOk result (out.new.items ≡ out.old.items ++ hit_line hit.now) }
{
    push_number(out, "hit blob=", hit.blob)?;
    push_number(out, " offset=", hit.offset)?;
    push_text(out, "\n")
}

/// Pushes the line after the hits of a window: how many hits there are, how many bytes were read, and how many the
/// file has.
#[tactic(auto, unfolding(crate::specs::Output::end_line))]
pub fn push_end_line<A: Allocator>(
    out: &mut Vec<u8, A>,
    hits: usize,
    read: u64,
    len: usize,
) -> Result<(), AllocError>
    ensures { OnOk result (out.new.items ≡ out.old.items ++ end_line hits read len) }
{
    push_number(out, "hits=", hits)?;
    push_number(out, " read=", read)?;
    push_number(out, " of=", len)?;
    push_text(out, "\n")
}

// ---- words

/// The word for a kind of refusal.
#[tactic(auto, unfolding(crate::specs::Output::word_of))]
fn word_of(kind: u8) -> &'static str
    requires { (1 ≤ kind) × (kind ≤ 9) }
    ensures { word_of kind ≡ Some result.now }
{
    match kind {
        1 => "cut",
        2 => "varint",
        3 => "type",
        4 => "depth",
        5 => "range",
        6 => "size",
        7 => "box",
        8 => "ids",
        9 => "loose",
        _ => unreachable!(),
    }
}

/// The name of a type.
#[tactic(auto, unfolding(crate::specs::Output::name_of))]
fn name_of(kind: Kind) -> &'static str
    ensures { result.now ≡ name_of kind }
{
    match kind {
        Kind::Point => "point",
        Kind::LineString => "linestring",
        Kind::Polygon => "polygon",
        Kind::MultiPoint => "multipoint",
        Kind::MultiLineString => "multilinestring",
        Kind::MultiPolygon => "multipolygon",
        Kind::GeometryCollection => "geometrycollection",
    }
}

/// `yes` if true, else `no`: for whether a blob has a size, or a box.
#[tactic(auto, unfolding(crate::specs::Output::yes_no))]
fn yes_no(is: bool) -> &'static str
    ensures { result.now ≡ yes_no is }
{
    if is { "yes" } else { "no" }
}

// ---- pieces

/// Pushes a name, and a number after it.
fn push_number<I: Integer, A: Allocator>(
    out: &mut Vec<u8, A>,
    name: &str,
    n: I,
) -> Result<(), AllocError>
    ensures { OnOk result (out.new.items ≡ out.old.items ++ (name.now ++ I.text n)) }
{
    let mut buffer = Buffer::new();
    push_word(out, name, buffer.format(n))
}

/// Pushes a name, and a word after it.
fn push_word<A: Allocator>(out: &mut Vec<u8, A>, name: &str, word: &str) -> Result<(), AllocError>
    ensures { OnOk result (out.new.items ≡ out.old.items ++ (name.now ++ word.now)) }
{
    push_text(out, name)?;
    push_text(out, word)
}

/// Pushes a piece of text.
fn push_text<A: Allocator>(out: &mut Vec<u8, A>, piece: &str) -> Result<(), AllocError>
    ensures { OnOk result (out.new.items ≡ out.old.items ++ piece.now) }
{
    out.extend_from_slice(piece.as_bytes())
}
