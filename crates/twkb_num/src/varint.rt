//! Unsigned varints of any length, and why there is none. Used by other crates, and here by `cursor`,
//! `cursor/numbers` and `cursor/points`.
ghost use Rattle.std.specs.Prelude.{◌≡◌, ◌+◌, ◌<◌, ◌≤◌, ◌↔◌, length, take, IfOk};
ghost use Rattle.twkb_num.specs.Varint.{Spells, Faults};
ghost use Rattle.twkb_num.specs.Devices.Varint.{IsBegunBy};

/// Why there is no number at a place.
#[derive(Clone, Copy, Debug, PartialEq, Eq)]
pub enum NumFault {
    /// The bytes end before the varint does.
    Cut = 1,
    /// The varint exceeds 64 bits.
    Long = 2,
}

/// The number that the front of `bytes` spells, and the length of its spelling. Neither of its first two bytes ends it, and
/// `value` is the sum of their groups.
#[inline(always)]
pub fn decode(bytes: &[u8], value: u64) -> Result<(u64, usize), NumFault>
    requires { IsBegunBy 2 bytes.now value }
    ensures len { IfOk result (λ read. read.1 ≤ length bytes.now) }
    ensures ok { IfOk result (λ read. Spells (take read.1 bytes.now) read.0) }
    ensures fault { (fault : NumFault) → (result ≡ Err fault) ↔ Faults fault bytes.now }
{
    let mut value = value;
    for place in 2..9 {
        let Some(&byte) = bytes.get(place) else {
            return Err(NumFault::Cut);
        };
        value += u64::from(byte % 128) << (7 * place);
        if byte < 128 {
            return Ok((value, place + 1));
        }
    }
    // Nine groups are 63 bits: the tenth byte has room for one more.
    let Some(&top) = bytes.get(9) else {
        return Err(NumFault::Cut);
    };
    if top > 1 {
        return Err(NumFault::Long);
    }
    Ok((value + (u64::from(top) << 63), 10))
}
