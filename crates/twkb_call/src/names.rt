//! Words for the numbers of types, kinds and answers, as the program prints them. Each has zeros after it, up to 24 bytes.
//! `twkb_c` exports them, for programs in C. Used by other crates.
ghost use Rattle.std.specs.Prelude.{◌≡◌};
ghost use Rattle.twkb_call.specs.Names.{type_name, kind_name, answer_name, with_zeros};

/// A word of fewer than 24 bytes, followed by zeros.
#[repr(C)]
#[derive(Clone, Copy, Debug, PartialEq, Eq)]
pub struct Name {
    pub text: [u8; 24],
}

const SIZE: usize = std::mem::size_of::<Name>();

const _: () = prove!(SIZE == 24);

/// The name of a geometry's type. It is empty if the number is no type.
#[tactic(auto, unfolding(crate::specs::Names::type_name, crate::specs::Names::with_zeros))]
pub fn type_name(number: u32) -> &'static [u8; 24]
    ensures { result.now ≡ with_zeros (type_name number) }
{
    match number {
        1 => b"point\0\0\0\0\0\0\0\0\0\0\0\0\0\0\0\0\0\0\0",
        2 => b"linestring\0\0\0\0\0\0\0\0\0\0\0\0\0\0",
        3 => b"polygon\0\0\0\0\0\0\0\0\0\0\0\0\0\0\0\0\0",
        4 => b"multipoint\0\0\0\0\0\0\0\0\0\0\0\0\0\0",
        5 => b"multilinestring\0\0\0\0\0\0\0\0\0",
        6 => b"multipolygon\0\0\0\0\0\0\0\0\0\0\0\0",
        7 => b"geometrycollection\0\0\0\0\0\0",
        _ => b"\0\0\0\0\0\0\0\0\0\0\0\0\0\0\0\0\0\0\0\0\0\0\0\0",
    }
}

/// The name of a refusal's kind. It is empty if the number is no kind.
#[tactic(auto, unfolding(crate::specs::Names::kind_name, crate::specs::Names::with_zeros))]
pub fn kind_name(number: u32) -> &'static [u8; 24]
    ensures { result.now ≡ with_zeros (kind_name number) }
{
    match number {
        1 => b"cut\0\0\0\0\0\0\0\0\0\0\0\0\0\0\0\0\0\0\0\0\0",
        2 => b"varint\0\0\0\0\0\0\0\0\0\0\0\0\0\0\0\0\0\0",
        3 => b"type\0\0\0\0\0\0\0\0\0\0\0\0\0\0\0\0\0\0\0\0",
        4 => b"depth\0\0\0\0\0\0\0\0\0\0\0\0\0\0\0\0\0\0\0",
        5 => b"range\0\0\0\0\0\0\0\0\0\0\0\0\0\0\0\0\0\0\0",
        6 => b"size\0\0\0\0\0\0\0\0\0\0\0\0\0\0\0\0\0\0\0\0",
        7 => b"box\0\0\0\0\0\0\0\0\0\0\0\0\0\0\0\0\0\0\0\0\0",
        8 => b"ids\0\0\0\0\0\0\0\0\0\0\0\0\0\0\0\0\0\0\0\0\0",
        9 => b"loose\0\0\0\0\0\0\0\0\0\0\0\0\0\0\0\0\0\0\0",
        _ => b"\0\0\0\0\0\0\0\0\0\0\0\0\0\0\0\0\0\0\0\0\0\0\0\0",
    }
}

/// The name of a verdict's answer. It is empty if the number is no answer.
#[tactic(auto, unfolding(crate::specs::Names::answer_name, crate::specs::Names::with_zeros))]
pub fn answer_name(number: u32) -> &'static [u8; 24]
    ensures { result.now ≡ with_zeros (answer_name number) }
{
    match number {
        0 => b"certified\0\0\0\0\0\0\0\0\0\0\0\0\0\0\0",
        1 => b"refused\0\0\0\0\0\0\0\0\0\0\0\0\0\0\0\0\0",
        2 => b"no memory\0\0\0\0\0\0\0\0\0\0\0\0\0\0\0",
        _ => b"\0\0\0\0\0\0\0\0\0\0\0\0\0\0\0\0\0\0\0\0\0\0\0\0",
    }
}
