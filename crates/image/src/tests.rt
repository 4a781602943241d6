// Images written out by hand.
use super::*;
use std::test::Fail;
use writer::{BufferShort, ByteWriter};

#[test]
fn scalars(rt: HostRuntime) -> Result<(), Fail> {
    let mut out = [7u8; 52];
    let mut writer = ByteWriter::new(&mut out);
    write_null(&mut writer)?;
    write_bool(&mut writer, false)?;
    write_bool(&mut writer, true)?;
    write_int(&mut writer, -2)?;
    write_uint(&mut writer, 0x0102030405060708)?;
    write_text(&mut writer, b"ab")?;
    write_bytes(&mut writer, b"\xff")?;
    write_duration(&mut writer, 1000000000)?;
    assert_eq!(rt; writer.position(), 43);
    assert_eq!(rt; &out[0..3], b"\x00\x01\x02".as_slice());
    assert_eq!(rt;
        &out[3..12],
        b"\x03\xff\xff\xff\xff\xff\xff\xff\xfe".as_slice()
    );
    assert_eq!(rt;
        &out[12..21],
        b"\x04\x01\x02\x03\x04\x05\x06\x07\x08".as_slice()
    );
    assert_eq!(rt;
        &out[21..34],
        b"\x06\x00\x00\x00\x02ab\x07\x00\x00\x00\x01\xff".as_slice()
    );
    assert_eq!(rt;
        &out[34..44],
        b"\x09\x00\x00\x00\x00\x3b\x9a\xca\x00\x07".as_slice()
    );
    Ok(())
}

#[test]
fn scope_with_optional(rt: HostRuntime) -> Result<(), Fail> {
    let mut out = [7u8; 32];
    let mut writer = ByteWriter::new(&mut out);
    begin_self(&mut writer)?;
    begin_map(&mut writer, 1)?;
    write_text(&mut writer, b"k")?;
    begin_list(&mut writer, 0)?;
    begin_old(&mut writer)?;
    begin_some(&mut writer)?;
    write_null(&mut writer)?;
    write_empty(&mut writer)?;
    assert_eq!(rt; writer.position(), 21);
    assert_eq!(rt;
        &out[0..12],
        b"\x10\x0b\x00\x00\x00\x01\x06\x00\x00\x00\x01k".as_slice()
    );
    assert_eq!(rt;
        &out[12..22],
        b"\x0a\x00\x00\x00\x00\x11\x0d\x00\x05\x07".as_slice()
    );
    Ok(())
}

#[test]
fn short_buffers(rt: HostRuntime) {
    let mut out = [7u8; 7];
    let mut writer = ByteWriter::new(&mut out);
    assert_eq!(rt; write_int(&mut writer, 3), Err(BufferShort));
    assert_eq!(rt; writer.position(), 0);
    assert_eq!(rt; write_text(&mut writer, b"abc"), Err(BufferShort));
    assert_eq!(rt; writer.position(), 5);
    assert_eq!(rt; begin_list(&mut writer, 1), Err(BufferShort));
    assert_eq!(rt; &out[0..7], b"\x06\x00\x00\x00\x03\x07\x07".as_slice());
}

#[test]
fn commands(rt: HostRuntime) {
    assert_eq!(rt; Command::try_from(0x06), Ok(Command::Text));
    assert_eq!(rt; Command::try_from(0x08), Err(UnknownCommand(0x08)));
    assert_eq!(rt; Command::try_from(0x0d), Ok(Command::Present));
    assert_eq!(rt; Command::try_from(0xff), Err(UnknownCommand(0xff)));
    assert_eq!(rt; u8::from(Command::Old), 0x11);
}
