//! Windows and ranges as C has them: units in two words, and texts that are refused.
use super::equal;
use twkb_call::{Range, Units, Window, parse_window, span_of_decimals};

const NOTHING: Units = Units { low: 0, high: 0 };

const NOWHERE: Range = Range {
    lo: NOTHING,
    hi: NOTHING,
};

pub const UNREAD: Window = Window {
    x: NOWHERE,
    y: NOWHERE,
    z: NOWHERE,
    m: NOWHERE,
    has_z: false,
    has_m: false,
};

#[test]
fn windows_in_two_words(rt: HostRuntime) {
    let mut window = UNREAD;
    let text =
        b"x=-0.0000001..1,y=-999999999999999999999999999..999999999999999999999999999.9999999,m=2..2";
    equal(&rt, parse_window(text, &mut window), 0);
    equal(
        &rt,
        window.x,
        Range {
            lo: Units {
                low: u64::MAX,
                high: -1,
            },
            hi: Units {
                low: 10_000_000,
                high: 0,
            },
        },
    );
    // 10^34 - 10^7 and 10^34 - 1, by 2^64.
    equal(
        &rt,
        window.y,
        Range {
            lo: Units {
                low: 14_443_731_869_769_438_848,
                high: -542_101_086_242_753,
            },
            hi: Units {
                low: 4_003_012_203_950_112_767,
                high: 542_101_086_242_752,
            },
        },
    );
    equal(
        &rt,
        window.m,
        Range {
            lo: Units {
                low: 20_000_000,
                high: 0,
            },
            hi: Units {
                low: 20_000_000,
                high: 0,
            },
        },
    );
    assert!(rt; !window.has_z && window.has_m);
    equal(&rt, window.z, NOWHERE);
}

#[test]
fn texts_that_are_no_window(rt: HostRuntime) {
    let table: [(&[u8], u32); 5] = [
        (b"", 1),
        (b"x=0..1", 1),
        (b"x=0..1,y=0..1 ", 1),
        (b"x=0..1,y=\xFF..1", 1),
        (b"x=1..0,y=0..1", 2),
    ];
    for (text, answer) in table {
        let mut window = Window {
            has_z: true,
            ..UNREAD
        };
        equal(&rt, parse_window(text, &mut window), answer);
        equal(
            &rt,
            window,
            Window {
                has_z: true,
                ..UNREAD
            },
        );
    }
}

#[test]
fn ranges_of_decimals(rt: HostRuntime) {
    let table: [(&[u8], &[u8], u32); 4] = [
        (b"-0.00000019", b"1", 0),
        (b"0.1", b"0.30000000000000004", 0),
        (b"1", b"x", 1),
        (b"1", b"0.999999999999", 2),
    ];
    for (lo, hi, answer) in table {
        let mut range = UNREAD.x;
        equal(&rt, span_of_decimals(lo, hi, &mut range), answer);
        equal(&rt, range == UNREAD.x, answer != 0);
    }
    let mut range = UNREAD.x;
    equal(&rt, span_of_decimals(b"-0.00000019", b"1", &mut range), 0);
    let lo = Units {
        low: u64::MAX,
        high: -1,
    };
    let hi = Units {
        low: 10_000_000,
        high: 0,
    };
    equal(&rt, range, Range { lo, hi });
}
