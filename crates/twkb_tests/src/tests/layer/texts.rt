//! Texts of windows.
use super::equal;
use std::test::Fail;
use twkb_layer::{BadWindow, Span, Window};

// A range by its ends in units.
const fn units(lo: i128, hi: i128) -> Span {
    Span { lo, hi }
}

#[test]
fn ranges_in_units(rt: HostRuntime) {
    let flat = Window::new(units(0, 10_000_000), units(0, 10_000_000));
    let table = [
        (
            "x=5..9,y=5..9",
            Window::new(units(50_000_000, 90_000_000), units(50_000_000, 90_000_000)),
        ),
        (
            "x=007..7.0,y=-0..0",
            Window::new(units(70_000_000, 70_000_000), units(0, 0)),
        ),
        (
            "x=-0.5..0.0000001,y=1..1",
            Window::new(units(-5_000_000, 1), units(10_000_000, 10_000_000)),
        ),
        (
            "x=0..1,y=0..1,z=2..2",
            flat.with_z(units(20_000_000, 20_000_000)),
        ),
        (
            "x=0..1,y=0..1,m=2..2",
            flat.with_m(units(20_000_000, 20_000_000)),
        ),
        (
            "x=0..1,y=0..1,z=2..2,m=-1..1",
            flat.with_z(units(20_000_000, 20_000_000))
                .with_m(units(-10_000_000, 10_000_000)),
        ),
    ];
    for (text, window) in table {
        equal(&rt, (Window::parse(text), text), (Ok(window), text));
    }
}

#[test]
fn refused_texts(rt: HostRuntime) {
    let table = [
        ("x=1..0,y=0..0", BadWindow::Order),
        ("x=0..0,y=0.1..0", BadWindow::Order),
        ("x=0..1,y=0..1,z=1..0", BadWindow::Order),
        ("x=1..0,y=z", BadWindow::Form),
        ("", BadWindow::Form),
        ("x=0..1", BadWindow::Form),
        ("y=0..1,x=0..1", BadWindow::Form),
        ("x=1...5,y=0..1", BadWindow::Form),
        ("x=1.,y=0..0", BadWindow::Form),
        ("x=.5..1,y=0..1", BadWindow::Form),
        ("x=0.00000001..1,y=0..1", BadWindow::Form),
        ("x=0..1,y=0..1,m=0..1,z=0..1", BadWindow::Form),
        ("x=0..1,y=0..1,", BadWindow::Form),
        ("x=0..1,y=0..1 ", BadWindow::Form),
        ("x=0..1, y=0..1", BadWindow::Form),
        ("X=0..1,Y=0..1", BadWindow::Form),
        ("x=0..1,y=0..1,z=0..1,z=0..1", BadWindow::Form),
        ("x=0..1,y=0..1,m=0..", BadWindow::Form),
        ("x=0..1,y=--1..1", BadWindow::Form),
        ("x=+0..1,y=0..1", BadWindow::Form),
        ("x=0..1,y=0..1000000000000000000000000000", BadWindow::Form),
    ];
    for (text, why) in table {
        equal(&rt, (Window::parse(text), text), (Err(why), text));
    }
}

#[test]
fn greatest_numbers(rt: HostRuntime) {
    let text = "x=-999999999999999999999999999.9999999..999999999999999999999999999.9999999,y=0..0";
    let most = 9_999_999_999_999_999_999_999_999_999_999_999;
    equal(
        &rt,
        Window::parse(text),
        Ok(Window::new(units(-most, most), units(0, 0))),
    );
}

#[test]
fn reasons_have_their_numbers(rt: HostRuntime) {
    equal(&rt, BadWindow::Form as u8, 1);
    equal(&rt, BadWindow::Order as u8, 2);
}

#[test]
fn reasons_have_their_texts(rt: HostRuntime) -> Result<(), Fail> {
    let form = BadWindow::Form.to_string(rt.alloc())?;
    let order = BadWindow::Order.to_string(rt.alloc())?;
    equal(
        &rt,
        form.as_str(),
        "not of the form x=A..B,y=C..D[,z=E..F][,m=G..H]",
    );
    equal(&rt, order.as_str(), "lower bound above upper bound");
    Ok(())
}
