//! Each public call once on its happy path, and the limits.

use ground_num::{
    Name, NameFault, NumFault, PLACE_LIMIT, Thousandths, put_decimal, put_volume, read_decimal,
    shift,
};
use std::alloc::Global;
use std::test::Fail;

#[test]
fn numbers_are_written_with_three_decimals(rt: HostRuntime) -> Result<(), Fail> {
    for (value, text) in [
        (0, "0.000"),
        (-1, "-0.001"),
        (1_500, "1.500"),
        (-536_870_912, "-536870.912"),
        (999_999_999_999, "999999999.999"),
        (i64::MIN, "-9223372036854775.808"),
    ] {
        let mut into = [0u8; 24];
        let len = put_decimal(Thousandths(value), &mut into);
        assert_eq!(rt; &into[..len], text.as_bytes(), "of {value}");
    }
    Ok(())
}

#[test]
fn volumes_are_rounded_half_up(rt: HostRuntime) -> Result<(), Fail> {
    for (sixths, text) in [
        (0, "0.000"),
        (25_000_000_000, "4.167"),
        (-100_000_000_000, "-16.667"),
        (3_000_000, "0.001"),
        (-3_000_000, "0.000"),
        (-3_000_001, "-0.001"),
        (6_917_529_027_641_081_856_000, "1152921504606.847"),
    ] {
        let mut into = [0u8; 48];
        let len = put_volume(sixths, &mut into);
        assert_eq!(rt; &into[..len], text.as_bytes(), "of {sixths}");
    }
    Ok(())
}

#[test]
fn a_coordinate_is_shifted_within_the_limit(rt: HostRuntime) {
    for (value, origin, shifted) in [
        (5, 2, Some(3)),
        (PLACE_LIMIT, 0, Some(536_870_912)),
        (0, PLACE_LIMIT, Some(-536_870_912)),
        (PLACE_LIMIT + 1, 0, None),
        (0, PLACE_LIMIT + 1, None),
    ] {
        assert_eq!(rt;
            shift(Thousandths(value), Thousandths(origin)),
            shifted,
            "of {value}"
        );
    }
}

fn answer_to(alloc: Global, text: &[u8]) -> &'static str {
    match Name::from_bytes(alloc, text) {
        Ok(_) => "a name",
        Err(NameFault::Long) => "long",
        Err(NameFault::NotUtf8) => "not UTF-8",
        Err(NameFault::Control) => "control",
        Err(NameFault::Memory(_)) => "out of memory",
    }
}

#[test]
fn a_name_is_text_without_control_bytes(rt: HostRuntime) -> Result<(), Fail> {
    for (text, answer) in [
        ([b'a'; 255].as_slice(), "a name"),
        ([b'a'; 256].as_slice(), "long"),
        (b"\xff".as_slice(), "not UTF-8"),
        (b"a\x00".as_slice(), "control"),
    ] {
        let len = text.len();
        assert_eq!(rt; answer_to(rt.alloc(), text), answer, "{len} bytes");
    }
    let name = Name::from_bytes(rt.alloc(), b"EG\t1")?;
    let read = (name.len(), name.is_empty(), name.get(1).copied());
    assert_eq!(rt; read, (4, false, Some(b'G')));
    assert!(rt; name.get(4).is_none());
    Ok(())
}

// What is read, as text: a number of thousandths, or the fault.
fn reading(text: &[u8]) -> Result<i64, NumFault> {
    read_decimal(text).map(|number| number.0)
}

#[test]
fn decimals_are_rounded_half_away_from_zero(rt: HostRuntime) {
    for (text, thousandths) in [
        ("1.04E+02", 104_000),
        ("101.0005", 101_001),
        ("-101.0005", -101_001),
        ("-0.0004", 0),
        ("102.000499999999", 102_000),
        ("4512310.000000000000", 4_512_310_000),
        ("+.5e-3", 1),
        ("5.", 5_000),
        ("1e-99999999999999999999", 0),
        ("0e99999999999999999999", 0),
        ("12345678901234567890123e-20", 123_457),
        ("-999999999.9994", -999_999_999_999),
    ] {
        assert_eq!(rt; reading(text.as_bytes()), Ok(thousandths), "of {text}");
    }
}

#[test]
fn what_is_no_number_is_refused_at_its_first_byte(rt: HostRuntime) {
    for (text, fault) in [
        ("1.e", NumFault::NotNumber { at: 3 }),
        ("", NumFault::NotNumber { at: 0 }),
        ("-", NumFault::NotNumber { at: 1 }),
        (".", NumFault::NotNumber { at: 1 }),
        ("1.2.3", NumFault::NotNumber { at: 3 }),
        ("--1", NumFault::NotNumber { at: 1 }),
        ("1 ", NumFault::NotNumber { at: 1 }),
        (".e5", NumFault::NotNumber { at: 1 }),
        ("1e+", NumFault::NotNumber { at: 3 }),
        ("999999999.9995", NumFault::TooBig),
        ("-1e9", NumFault::TooBig),
        ("1e99999999999999999999", NumFault::TooBig),
    ] {
        assert_eq!(rt; reading(text.as_bytes()), Err(fault), "of {text}");
    }
}

// Whether the byte of the name is written so.
fn is_written(name: &Name, offset: usize, text: &[u8]) -> bool {
    let mut into = [0u8; 6];
    match name.escaped(offset, &mut into) {
        Some(len) => &into[..len] == text,
        None => false,
    }
}

#[test]
fn a_name_is_escaped_byte_by_byte(rt: HostRuntime) -> Result<(), Fail> {
    let name = Name::from_bytes(rt.alloc(), b"A&\"<>\t\n\r'")?;
    for (offset, text) in [
        (0, "A"),
        (1, "&amp;"),
        (2, "&quot;"),
        (3, "&lt;"),
        (4, "&gt;"),
        (5, "&#9;"),
        (6, "&#10;"),
        (7, "&#13;"),
        (8, "'"),
    ] {
        assert!(rt; is_written(&name, offset, text.as_bytes()), "{text}");
    }
    let mut into = [0u8; 6];
    assert!(rt; name.escaped(9, &mut into).is_none());
    Ok(())
}
