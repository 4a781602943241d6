// Cursors and scopes over bytes written out by hand.
use super::*;
use std::test::Fail;

#[test]
fn commands(rt: HostRuntime) {
    // the bytes, and where the cursor stands after a read; 0 where there is nothing to read
    let cases: [(&[u8], usize); 16] = [
        (b"", 0),
        (b"\x00", 1),
        (b"\x01\x00", 1),
        (b"\x02", 1),
        (b"\x03\x00\x00\x00\x00\x00\x00\x00\x03", 9),
        (b"\x03\x00\x00\x00\x00\x00\x00\x03", 0),
        (b"\x04\xff\xff\xff\xff\xff\xff\xff\xff\x00", 9),
        (b"\x05", 0),
        (b"\x06\x00\x00\x00\x02ab", 7),
        (b"\x06\x00\x00\x00\x03ab", 0),
        (b"\x07\x00\x00\x00\x00", 5),
        (b"\x08", 0),
        (b"\x09\xff\xff\xff\xff\xff\xff\xff\xff", 9),
        (b"\x0a\x00\x00\x00\x05", 5),
        (b"\x0b\xff\xff\xff\xff", 5),
        (b"\x10\x00", 0),
    ];
    for (bytes, end) in cases.iter().copied() {
        let mut cursor = Cursor::new(bytes, 0);
        assert_eq!(rt; cursor.read().is_some(), end > 0);
        assert_eq!(rt; cursor.position(), end);
    }
}

#[test]
fn operands(rt: HostRuntime) -> Result<(), Fail> {
    let mut number = Cursor::new(b"\x00\x03\xff\xff\xff\xff\xff\xff\xff\xfe", 1);
    let Some(Head::Int(z)) = number.read() else {
        return Err(Fail::new("no int"));
    };
    assert_eq!(rt; z, -2);
    let mut text = Cursor::new(b"\x06\x00\x00\x00\x02ab", 0);
    let Some(Head::Text(part)) = text.read() else {
        return Err(Fail::new("no text"));
    };
    assert_eq!(rt; part.place, 5);
    assert_eq!(rt; part.text, b"ab".as_slice());
    Ok(())
}

#[test]
fn whole_values(rt: HostRuntime) {
    // the bytes, and where the value ends; 0 where there is none
    let cases: [(&[u8], usize); 7] = [
        (b"\x0a\x00\x00\x00\x00\x00", 5),
        (b"\x0b\x00\x00\x00\x00", 5),
        (b"\x0a\x00\x00\x00\x02\x00\x0a\x00\x00\x00\x01\x02", 12),
        (b"\x0a\x00\x00\x00\x02\x00", 0),
        (b"\x0b\x00\x00\x00\x01\x06\x00\x00\x00\x01a\x00\x00", 12),
        (b"\x0a\xff\xff\xff\xff\x00\x00\x00\x00\x00", 0),
        (b"\x0b\xff\xff\xff\xff\x00\x00\x00\x00\x00", 0),
    ];
    for (bytes, end) in cases.iter().copied() {
        let mut cursor = Cursor::new(bytes, 0);
        assert_eq!(rt; cursor.skip(), end > 0);
        assert_eq!(rt; cursor.position(), end);
    }
}

#[test]
fn members(rt: HostRuntime) {
    let map = b"\x0b\x00\x00\x00\x02\x06\x00\x00\x00\x01a\x00\x06\x00\x00\x00\x02bc\x01";
    // the key, and where its value begins; 0 where there is none
    let cases: [(&[u8], usize); 4] = [(b"a", 11), (b"bc", 19), (b"b", 0), (b"", 0)];
    for (key, place) in cases.iter().copied() {
        let mut cursor = Cursor::new(map, 0);
        assert_eq!(rt; cursor.find(key), place > 0);
        assert_eq!(rt; cursor.position(), place);
    }
    let mut inside = Cursor::new(map, 5);
    assert!(rt; !inside.find(b"a"));
}

#[test]
fn scopes(rt: HostRuntime) {
    let cases: [(&[u8], Option<OldPlace>); 22] = [
        (
            b"\x10\x03\x00\x00\x00\x00\x00\x00\x00\x03",
            Some(OldPlace::Absent),
        ),
        (b"\x10\x00\x11\x02", Some(OldPlace::Plain(3))),
        (b"\x10\x00\x11\x05", Some(OldPlace::Empty)),
        (b"\x10\x00\x11\x0d\x01", Some(OldPlace::Present(4))),
        (b"\x10\x0b\x00\x00\x00\x00", Some(OldPlace::Absent)),
        (b"\x10\x0a\x00\x00\x00\x00", Some(OldPlace::Absent)),
        (b"", None),
        (b"\x10", None),
        (b"\x00", None),
        (b"\x10\x00\x00", None),
        (b"\x10\x00\x11", None),
        (b"\x10\x00\x11\x05\x00", None),
        (b"\x10\x00\x11\x0d", None),
        (b"\x10\x00\x11\x01\x01", None),
        (b"\x10\x06\x00\x00\x00\x05a", None),
        (b"\x10\x0a\xff\xff\xff\xff\x00\x00\x00\x00", None),
        (b"\x10\x0b\x00\x00\x00\x01\x00\x00", None),
        (
            b"\x10\x0b\x00\x00\x00\x02\x06\x00\x00\x00\x01a\x00\x06\x00\x00\x00\x01b\x00",
            Some(OldPlace::Absent),
        ),
        (
            b"\x10\x0b\x00\x00\x00\x02\x06\x00\x00\x00\x01b\x00\x06\x00\x00\x00\x01a\x00",
            None,
        ),
        (
            b"\x10\x0b\x00\x00\x00\x02\x06\x00\x00\x00\x01a\x00\x06\x00\x00\x00\x01a\x00",
            None,
        ),
        (
            b"\x10\x0a\x00\x00\x00\x01\x0b\x00\x00\x00\x02\x06\x00\x00\x00\x00\x00\x06\x00\x00\x00\x00\x00",
            None,
        ),
        (b"\x10\x0b\x00\x00\x00\x01\x07\x00\x00\x00\x01a\x00", None),
    ];
    for (bytes, old) in cases.iter().copied() {
        let expected = match old {
            Some(old) => Some(ScopeParts { own: 1, old }),
            None => None,
        };
        assert_eq!(rt; read_scope(bytes), expected);
    }
}

#[test]
fn deep_nesting(rt: HostRuntime) -> Result<(), Fail> {
    let mut bytes = Vec::new(rt.alloc());
    bytes.push(0x10)?;
    for _ in 0..100000 {
        bytes.extend_from_slice(b"\x0a\x00\x00\x00\x01")?;
    }
    bytes.push(0x00)?;
    assert!(rt; read_scope(bytes.as_slice()).is_some());
    bytes.push(0x00)?;
    assert!(rt; read_scope(bytes.as_slice()).is_none());
    Ok(())
}
