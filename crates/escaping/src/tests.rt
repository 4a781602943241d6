use super::{compare_escaped, escape_field_name, escaped_len, is_reserved};
use std::cmp::Ordering;
use writer::BufferShort;

#[test]
fn full_and_short_buffers(rt: HostRuntime) {
    let mut out = [7u8; 9];
    assert_eq!(rt; escape_field_name(b"a.b", &mut out), Ok(9));
    assert_eq!(rt; &out[0..9], b"a__dot__b".as_slice());
    let mut short = [7u8; 8];
    assert_eq!(rt; escape_field_name(b"a.b", &mut short), Err(BufferShort));
    assert_eq!(rt;
        &short[0..8],
        b"\x07\x07\x07\x07\x07\x07\x07\x07".as_slice()
    );
    let mut long = [7u8; 10];
    assert_eq!(rt; escape_field_name(b"let", &mut long), Ok(7));
    assert_eq!(rt; &long[0..10], b"__let__\x07\x07\x07".as_slice());
}

#[test]
fn empty_names(rt: HostRuntime) {
    let mut out = [7u8; 1];
    assert_eq!(rt; escape_field_name(b"", &mut out), Ok(0));
    assert_eq!(rt; escaped_len(b""), Some(0));
    assert!(rt; out[0] == 7);
    assert!(rt; !is_reserved(b""));
    assert_eq!(rt; compare_escaped(b"", b""), Ordering::Equal);
    assert_eq!(rt; compare_escaped(b"", b"a"), Ordering::Less);
}

// Orders that the names themselves do not have.
#[test]
fn escaped_order(rt: HostRuntime) {
    assert_eq!(rt; compare_escaped(b"a.b", b"aZ"), Ordering::Greater);
    assert_eq!(rt; compare_escaped(b"a/b", b"a-b"), Ordering::Greater);
    assert_eq!(rt; compare_escaped(b"a_b", b"a.b"), Ordering::Greater);
    assert_eq!(rt; compare_escaped(b"true", b"if"), Ordering::Greater);
    assert_eq!(rt; compare_escaped(b"if", b"a"), Ordering::Less);
}

// What two names share may end within a pair of underscores, and what is left may be a reserved word.
#[test]
fn shared_fronts(rt: HostRuntime) {
    assert_eq!(rt; compare_escaped(b"a__b", b"a_.b"), Ordering::Greater);
    assert_eq!(rt; compare_escaped(b"a_b", b"a__"), Ordering::Greater);
    assert_eq!(rt; compare_escaped(b"a___", b"a__b"), Ordering::Less);
    assert_eq!(rt; compare_escaped(b"xtrue", b"xfalse"), Ordering::Greater);
    assert_eq!(rt; compare_escaped(b"in", b"int"), Ordering::Less);
}
