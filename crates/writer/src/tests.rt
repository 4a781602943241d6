use super::{BufferShort, ByteWriter};
use std::test::Fail;

#[test]
fn one_after_another(rt: HostRuntime) -> Result<(), Fail> {
    let mut out = [7u8; 24];
    let mut writer = ByteWriter::new(&mut out);
    writer.put(b"ab")?;
    writer.put_byte(b'.')?;
    writer.put_decimal(60)?;
    writer.put_be_u32(0x01020304)?;
    writer.put_be_u64(0xfffefdfcfbfaf9f8)?;
    assert_eq!(rt; writer.position(), 17);
    assert_eq!(rt; &out[0..9], b"ab.60\x01\x02\x03\x04".as_slice());
    assert_eq!(rt; &out[9..17], b"\xff\xfe\xfd\xfc\xfb\xfa\xf9\xf8".as_slice());
    assert_eq!(rt; &out[17..24], b"\x07\x07\x07\x07\x07\x07\x07".as_slice());
    Ok(())
}

#[test]
fn short_buffers(rt: HostRuntime) {
    let mut out = [7u8; 3];
    let mut writer = ByteWriter::new(&mut out);
    assert_eq!(rt; writer.put(b"four"), Err(BufferShort));
    assert_eq!(rt; writer.put_decimal(1000), Err(BufferShort));
    assert_eq!(rt; writer.put_be_u32(0), Err(BufferShort));
    assert_eq!(rt; writer.position(), 0);
    assert_eq!(rt; writer.put(b"abc"), Ok(()));
    assert_eq!(rt; writer.put(b""), Ok(()));
    assert_eq!(rt; writer.put_byte(0), Err(BufferShort));
    assert_eq!(rt; writer.position(), 3);
    assert_eq!(rt; &out[0..3], b"abc".as_slice());
}

#[test]
fn decimals(rt: HostRuntime) -> Result<(), Fail> {
    let cases: [(u64, &[u8]); 6] = [
        (0, b"0"),
        (9, b"9"),
        (10, b"10"),
        (4096, b"4096"),
        (10000000000000000000, b"10000000000000000000"),
        (18446744073709551615, b"18446744073709551615"),
    ];
    for (n, text) in cases.iter().copied() {
        let mut out = [0u8; 20];
        let mut writer = ByteWriter::new(&mut out);
        writer.put_decimal(n)?;
        let end = writer.position();
        assert!(rt; end <= 20);
        assert_eq!(rt; &out[0..end], text);
    }
    Ok(())
}
