//! Ranges of decimals, and their ends in units.
use super::equal;
use twkb_layer::{BadRange, Span, span_of_decimals};

// No end is farther.
const FARTHEST: i128 = 10_000_000_000_000_000_000_000_000_000_000_000;

#[test]
fn ends_in_units(rt: HostRuntime) {
    let table: [(&[u8], &[u8], i128, i128); 14] = [
        (b"5", b"9", 50_000_000, 90_000_000),
        (b"-9", b"-5.5", -90_000_000, -55_000_000),
        (b"0.0000001", b"0.0000001", 1, 1),
        // Eight decimals: inward, on both sides of 0.
        (b"0.00000001", b"0.00000019", 1, 1),
        (b"-0.00000019", b"-0.00000001", -1, -1),
        // The double next to 0.3, exactly.
        (
            b"0.1000000000000000055511151231257827021181583404541015625",
            b"0.3000000000000000444089209850062616169452667236328125",
            1_000_001,
            3_000_000,
        ),
        // No unit is between them.
        (b"0.00000001", b"0.00000002", 1, 0),
        (b"-0.00000002", b"-0.00000001", 0, -1),
        (b"-0", b"0", 0, 0),
        (b"-0.00", b"000.0", 0, 0),
        (b"007.50", b"7.5000000000", 75_000_000, 75_000_000),
        // Farther than any coordinate.
        (
            b"-1000000000000000000000000000000000000000",
            b"1000000000000000000000000000000000000000",
            -FARTHEST,
            FARTHEST,
        ),
        (
            b"999999999999999999999999999.9999999",
            b"999999999999999999999999999.99999991",
            FARTHEST - 1,
            FARTHEST - 1,
        ),
        (
            b"999999999999999999999999999.99999991",
            b"2000000000000000000000000000",
            FARTHEST,
            FARTHEST,
        ),
    ];
    for (lower, upper, lo, hi) in table {
        let wanted = (Ok(Span { lo, hi }), lower);
        equal(&rt, (span_of_decimals(lower, upper), lower), wanted);
    }
}

#[test]
fn refused_ends(rt: HostRuntime) {
    let table: [(&[u8], &[u8], BadRange); 18] = [
        (b"1", b"0", BadRange::Order),
        // Within a unit, and beyond the farthest end.
        (b"0.00000002", b"0.00000001", BadRange::Order),
        (b"-0.00000001", b"-0.00000002", BadRange::Order),
        (
            b"20000000000000000000000000000000000001",
            b"20000000000000000000000000000000000000",
            BadRange::Order,
        ),
        (b"0.1", b"-0.1", BadRange::Order),
        (b"10", b"9.99999999999999999999", BadRange::Order),
        (b"0.10000000000000000001", b"0.1", BadRange::Order),
        (b"", b"0", BadRange::Form),
        (b"0", b"", BadRange::Form),
        (b"-", b"0", BadRange::Form),
        (b"1.", b"2", BadRange::Form),
        (b".5", b"2", BadRange::Form),
        (b"+1", b"2", BadRange::Form),
        (b"1e3", b"2000", BadRange::Form),
        (b" 1", b"2", BadRange::Form),
        (b"1", b"2 ", BadRange::Form),
        (b"1", b"nan", BadRange::Form),
        (b"2", b"1x", BadRange::Form),
    ];
    for (lower, upper, why) in table {
        let wanted = (Err(why), lower);
        equal(&rt, (span_of_decimals(lower, upper), lower), wanted);
    }
}
