// Keys: what is admissible and what is not, and the published vectors of FNV-1a.
use crate::outcomes::number_of;
use keys::code::DrawingCode;
use keys::hash::{fnv1a, fold};
use keys::kind::Key;
use keys::sheet::SheetNumber;

#[test]
fn fnv1a_gives_its_published_vectors(rt: HostRuntime) {
    assert_eq!(rt; fnv1a(b""), 0x811c9dc5);
    assert_eq!(rt; fnv1a(b"a"), 0xe40c292c);
    assert_eq!(rt; fnv1a(b"foobar"), 0xbf9cf968);
}

#[test]
fn a_sheet_number_is_below_p(rt: HostRuntime) {
    assert_eq!(rt; number_of(SheetNumber::new(0)), None);
    assert_eq!(rt; number_of(SheetNumber::new(2147483646)), None);
    assert_eq!(rt; number_of(SheetNumber::new(2147483647)), Some(4));
    assert_eq!(rt; number_of(SheetNumber::new(4294967296)), Some(4));
    assert_eq!(rt; number_of(SheetNumber::new(u64::MAX)), Some(4));
}

#[test]
fn a_code_has_1_to_12_letters_digits_and_hyphens(rt: HostRuntime) {
    assert_eq!(rt; number_of(DrawingCode::new(b"A")), None);
    assert_eq!(rt; number_of(DrawingCode::new(b"Z-09AZ-09AZ-")), None);
    assert_eq!(rt; number_of(DrawingCode::new(b"")), Some(4));
    assert_eq!(rt; number_of(DrawingCode::new(b"ABCDEFGHIJKLM")), Some(4));
    assert_eq!(rt; number_of(DrawingCode::new(b"a")), Some(4));
    assert_eq!(rt; number_of(DrawingCode::new(b"A\0")), Some(4));
}

#[test]
fn padding_comes_last_and_never_first(rt: HostRuntime) {
    assert!(rt; <DrawingCode as Key>::admits(b"A\0\0\0\0\0\0\0\0\0\0\0"));
    assert!(rt; !<DrawingCode as Key>::admits(b"A\0B\0\0\0\0\0\0\0\0\0"));
    assert!(rt; !<DrawingCode as Key>::admits(b"\0\0\0\0\0\0\0\0\0\0\0\0"));
    assert!(rt; !<DrawingCode as Key>::admits(b"A\0\0\0\0\0\0\0\0\0\0"));
}

#[test]
fn sheet_bytes_end_in_the_number(rt: HostRuntime) {
    assert!(rt; <SheetNumber as Key>::admits(&[0, 0, 0, 0, 0, 0, 0, 0, 127, 255, 255, 254]));
    assert!(rt; !<SheetNumber as Key>::admits(&[0, 0, 0, 0, 0, 0, 0, 0, 127, 255, 255, 255]));
    assert!(rt; !<SheetNumber as Key>::admits(&[0, 0, 0, 0, 0, 0, 0, 1, 0, 0, 0, 0]));
    assert!(rt; !<SheetNumber as Key>::admits(&[0, 0, 0, 0]));
}

#[test]
fn the_code_a_folds_to_67108866(rt: HostRuntime) {
    assert_eq!(rt; fold(b"A\0\0\0\0\0\0\0\0\0\0\0"), 67108866);
}
