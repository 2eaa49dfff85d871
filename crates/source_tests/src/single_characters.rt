// The decoder at each length, and each way to damage it; the encoder; White_Space at the edges of its ranges.
use characters::{decode, encode, is_white_space};

#[test]
fn each_length_is_decoded(rt: HostRuntime) {
    assert_eq!(rt; decode(b"\x00", 0), Some((0, 1)));
    assert_eq!(rt; decode(b"\x7F", 0), Some((0x7F, 1)));
    assert_eq!(rt; decode(b"\xC2\x80", 0), Some((0x80, 2)));
    assert_eq!(rt; decode(b"\xDF\xBF", 0), Some((0x7FF, 2)));
    assert_eq!(rt; decode(b"\xE0\xA0\x80", 0), Some((0x800, 3)));
    assert_eq!(rt; decode(b"\xED\x9F\xBF", 0), Some((0xD7FF, 3)));
    assert_eq!(rt; decode(b"\xEE\x80\x80", 0), Some((0xE000, 3)));
    assert_eq!(rt; decode(b"\xEF\xBF\xBF", 0), Some((0xFFFF, 3)));
    assert_eq!(rt; decode(b"\xF0\x90\x80\x80", 0), Some((0x10000, 4)));
    assert_eq!(rt; decode(b"\xF4\x8F\xBF\xBF", 0), Some((0x10FFFF, 4)));
}

#[test]
fn a_place_inside_is_decoded_from(rt: HostRuntime) {
    assert_eq!(rt; decode(b"a\xC3\xA9b", 1), Some((0xE9, 2)));
    assert_eq!(rt; decode(b"a\xC3\xA9b", 2), None);
    assert_eq!(rt; decode(b"a\xC3\xA9b", 3), Some((0x62, 1)));
    assert_eq!(rt; decode(b"a\xC3\xA9b", 4), None);
    assert_eq!(rt; decode(b"", 0), None);
    assert_eq!(rt; decode(b"a", 18446744073709551615), None);
}

#[test]
fn overlong_forms_are_none(rt: HostRuntime) {
    assert_eq!(rt; decode(b"\xC0\x80", 0), None);
    assert_eq!(rt; decode(b"\xC1\xBF", 0), None);
    assert_eq!(rt; decode(b"\xE0\x9F\xBF", 0), None);
    assert_eq!(rt; decode(b"\xF0\x8F\xBF\xBF", 0), None);
}

#[test]
fn surrogates_and_what_is_too_large_are_none(rt: HostRuntime) {
    assert_eq!(rt; decode(b"\xED\xA0\x80", 0), None);
    assert_eq!(rt; decode(b"\xED\xBF\xBF", 0), None);
    assert_eq!(rt; decode(b"\xF4\x90\x80\x80", 0), None);
    assert_eq!(rt; decode(b"\xF7\xBF\xBF\xBF", 0), None);
    assert_eq!(rt; decode(b"\xF8\x88\x80\x80\x80", 0), None);
    assert_eq!(rt; decode(b"\xFF", 0), None);
}

#[test]
fn bare_and_missing_continuation_is_none(rt: HostRuntime) {
    assert_eq!(rt; decode(b"\x80", 0), None);
    assert_eq!(rt; decode(b"\xBF", 0), None);
    assert_eq!(rt; decode(b"\xC3", 0), None);
    assert_eq!(rt; decode(b"\xC3(", 0), None);
    assert_eq!(rt; decode(b"\xC3\xC3", 0), None);
    assert_eq!(rt; decode(b"\xE2\x82", 0), None);
    assert_eq!(rt; decode(b"\xE2\x82a", 0), None);
    assert_eq!(rt; decode(b"\xF0\x9F\x98", 0), None);
    assert_eq!(rt; decode(b"\xF0\x9F\x98a", 0), None);
}

#[test]
fn characters_are_encoded(rt: HostRuntime) {
    assert_eq!(rt; encode(0x7F), Some(([0x7F, 0, 0, 0], 1)));
    assert_eq!(rt; encode(0xE9), Some(([0xC3, 0xA9, 0, 0], 2)));
    assert_eq!(rt; encode(0x20AC), Some(([0xE2, 0x82, 0xAC, 0], 3)));
    assert_eq!(rt; encode(0x1F600), Some(([0xF0, 0x9F, 0x98, 0x80], 4)));
    assert_eq!(rt; encode(0x10FFFF), Some(([0xF4, 0x8F, 0xBF, 0xBF], 4)));
    assert_eq!(rt; encode(0xD800), None);
    assert_eq!(rt; encode(0xDFFF), None);
    assert_eq!(rt; encode(0x110000), None);
}

// All 25, and those just outside the ranges.
#[test]
fn white_space_is_the_table(rt: HostRuntime) {
    let count = (0..0x110000u32).filter(|c| is_white_space(*c)).count();
    assert_eq!(rt; count, 25);
    assert!(rt; is_white_space(0x2000) && is_white_space(0x200A) && !is_white_space(0x200B));
    assert!(rt; is_white_space(0xA0) && is_white_space(0x3000) && !is_white_space(0xFEFF));
    assert!(rt; !is_white_space(0x1C) && !is_white_space(0x180E));
}
