// Texts that are base64, texts that are none, and buffers with too little room.
use super::*;

// What a buffer holds before it is written to.
const OLD: u8 = 0xAA;

// The test vectors of RFC 4648 section 10, and bytes that need every kind of sign.
const DECODED: [(&[u8], &[u8]); 15] = [
    (b"", b""),
    (b"Zg==", b"f"),
    (b"Zm8=", b"fo"),
    (b"Zm9v", b"foo"),
    (b"Zm9vYg==", b"foob"),
    (b"Zm9vYmE=", b"fooba"),
    (b"Zm9vYmFy", b"foobar"),
    (b"AA==", b"\x00"),
    (b"/w==", b"\xff"),
    (b"//8=", b"\xff\xff"),
    (b"////", b"\xff\xff\xff"),
    (b"++++", b"\xfb\xef\xbe"),
    (b"AAAAAA==", b"\x00\x00\x00\x00"),
    (b"gIGC/v8=", b"\x80\x81\x82\xfe\xff"),
    (b"FPucA9l+", b"\x14\xfb\x9c\x03\xd9\x7e"),
];

// Padding out of place, a sign too few, a line break, spare bits, the URL alphabet, and the neighbours of the ranges.
const REFUSED: [&[u8]; 38] = [
    b"=",
    b"====",
    b"Z===",
    b"Zg=g",
    b"Zm=v",
    b"=m9v",
    b"Zg==Zg==",
    b"Zm8=Zm9v",
    b"Zm9v====",
    b"Zg===",
    b"Z",
    b"Zg",
    b"Zg=",
    b"Zm9",
    b"Zm9vYg",
    b"Zm9vYmE",
    b"Zm9v\n",
    b"Zm9v\nZm9v",
    b"Zm\n9",
    b" Zg==",
    b"Zh==",
    b"Zo==",
    b"Zv==",
    b"Zm9=",
    b"Zm+=",
    b"Zm/=",
    b"Zmy=",
    b"Zm-v",
    b"Zm_v",
    b"@AAA",
    b"[AAA",
    b"`AAA",
    b"{AAA",
    b".AAA",
    b":AAA",
    b",AAA",
    b"AAA\x00",
    b"AAA\xc3",
];

#[test]
fn decodes(rt: HostRuntime) {
    for (text, bytes) in DECODED {
        let mut out = [OLD; 8];
        assert_eq!(rt; decoded_len(text), Some(bytes.len()));
        assert_eq!(rt; decode(text, &mut out), Ok(bytes.len()));
        for (i, x) in out.iter().enumerate() {
            assert_eq!(rt; *x, bytes.get(i).copied().unwrap_or(OLD));
        }
    }
}

#[test]
fn refuses(rt: HostRuntime) {
    for text in REFUSED {
        let mut out = [OLD; 8];
        assert_eq!(rt; decoded_len(text), None);
        assert_eq!(rt; decode(text, &mut out), Err(DecodeError::NotBase64));
        assert_eq!(rt; out, [OLD; 8]);
        assert_eq!(rt; decode(text, &mut []), Err(DecodeError::NotBase64));
    }
}

#[test]
fn room(rt: HostRuntime) {
    let mut full = [OLD; 4];
    assert_eq!(rt; decode(b"Zm9vYg==", &mut full), Ok(4));
    assert_eq!(rt; full, *b"foob");
    let mut short = [OLD; 3];
    assert_eq!(rt;
        decode(b"Zm9vYg==", &mut short),
        Err(DecodeError::BufferShort)
    );
    assert_eq!(rt; short, [OLD; 3]);
    assert_eq!(rt; decode(b"Zg==", &mut []), Err(DecodeError::BufferShort));
    assert_eq!(rt; decode(b"", &mut []), Ok(0));
}
