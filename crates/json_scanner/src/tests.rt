// Texts and their answers: each production, each fault, and texts that break off.
use super::modes::Fault;
use super::*;

const DEEP: usize = 200;

const LONG: usize = 8193;

const ACCEPTED: [&[u8]; 13] = [
    b" [1, -2, true, false, null, \"a\", {}] ",
    b"{}",
    b"[]",
    b"\"\"",
    b"0",
    b"[[], [[]]]",
    b"\t{ \"k\" : 1 ,\r\n\"k\":{\"\":[2]} }",
    b"\"\\\"\\\\\\/\\b\\f\\n\\r\\t\\u0041\\uFFff\\uD7FF\\ue000\"",
    b"\"\\ud83d\\ude00\\uDBFF\\uDFFF\"",
    b"\"\xc2\x80\xdf\xbf\xe0\xa0\x80\xed\x9f\xbf\xee\x80\x80\xef\xbf\xbf\"",
    b"\"\xf0\x90\x80\x80\xf3\xbf\xbf\xbf\xf4\x8f\xbf\xbf\x7f\"",
    b"-9223372036854775808",
    b"[9223372036854775807,18446744073709551615]",
];

const MALFORMED: [(&[u8], usize); 66] = [
    (b"", 0),
    (b" ", 1),
    (b"[", 1),
    (b"[1,", 3),
    (b"[1,]", 3),
    (b"[,1]", 1),
    (b"[1 2]", 3),
    (b"]", 0),
    (b"[]]", 2),
    (b"1 2", 2),
    (b"{", 1),
    (b"{1:2}", 1),
    (b"{\"a\"}", 4),
    (b"{\"a\":}", 5),
    (b"{\"a\":1,}", 7),
    (b"{,}", 1),
    (b"{\"a\" 1}", 5),
    (b"{\"a\":1 \"b\"", 7),
    (b"[}", 1),
    (b"{]", 1),
    (b"[1}", 2),
    (b"{\"a\":1]", 6),
    (b"nul", 3),
    (b"nulx", 3),
    (b"True", 0),
    (b"tru", 3),
    (b"tRue", 1),
    (b"falsy", 4),
    (b"nan", 1),
    (b"-", 1),
    (b"-x", 1),
    (b"01", 1),
    (b"1.x", 2),
    (b"1.", 2),
    (b"1e", 2),
    (b"1e+", 3),
    (b"+1", 0),
    (b".5", 0),
    (b"1a", 1),
    (b"[1-2]", 2),
    (b"\"", 1),
    (b"\"a", 2),
    (b"\"\\x", 2),
    (b"\"\\", 2),
    (b"\"\\u00g\"", 5),
    (b"\"\\u00", 5),
    (b"\"\t\"", 1),
    (b"\"\x1f\"", 1),
    (b"\"\\uDC00\"", 4),
    (b"\"\\uD800\"", 7),
    (b"\"\\uD800\\n\"", 8),
    (b"\"\\uD800\\u0041\"", 9),
    (b"\"\\uD800\\uDBFF\"", 10),
    (b"\"\\uD800\\uDC0", 12),
    (b"{\"\\uDFFF\":1}", 5),
    (b"\"\x80\"", 1),
    (b"\"\xc1\xbf\"", 1),
    (b"\"\xc2\"", 2),
    (b"\"\xe0\x9f\xbf\"", 2),
    (b"\"\xed\xa0\x80\"", 2),
    (b"\"\xf0\x8f\xbf\xbf\"", 2),
    (b"\"\xf4\x90\x80\x80\"", 2),
    (b"\"\xf5\"", 1),
    (b"\"\xe2\x82", 3),
    (b"\"\xf0\x9d\x84\"", 4),
    (b"\xef\xbb\xbf1", 0),
];

const UNFIT: [(&[u8], usize); 10] = [
    (b"-0", 0),
    (b"[1.5x", 1),
    (b"1e5", 0),
    (b"1E+2", 0),
    (b"18446744073709551616", 0),
    (b"-9223372036854775809", 0),
    (b"[1, 100000000000000000000]", 4),
    (b"-0.x", 0),
    (b"{\"a\":0.0}", 5),
    (b"-01", 0),
];

#[test]
fn texts(rt: HostRuntime) {
    for text in ACCEPTED {
        assert_eq!(rt; check_text(text), Ok(()));
    }
    for (text, place) in MALFORMED {
        assert_eq!(rt; check_text(text), Err(Fault::Malformed(place)));
    }
    for (text, place) in UNFIT {
        assert_eq!(rt; check_text(text), Err(Fault::Number(place)));
    }
}

#[test]
fn nested(rt: HostRuntime) {
    let mut text = [b'['; 400];
    assert_eq!(rt; check_text(&text[0..DEEP]), Err(Fault::Malformed(DEEP)));
    assert_eq!(rt; check_text(&text[0..DEEP + 1]), Err(Fault::Nested(DEEP)));
    text[DEEP] = b'{';
    assert_eq!(rt; check_text(&text[0..DEEP + 1]), Err(Fault::Nested(DEEP)));
    for b in text[DEEP..].iter_mut() {
        *b = b']';
    }
    assert_eq!(rt; check_text(&text), Ok(()));
}

// A list of 4,096 elements, which are 4,097 values: the last begins at 8,191.
fn crowd() -> [u8; LONG] {
    let mut text = [b','; LONG];
    for (i, b) in text.iter_mut().enumerate() {
        if i % 2 == 1 {
            *b = b'0';
        }
    }
    text[0] = b'[';
    text[LONG - 1] = b']';
    text
}

#[test]
fn crowded(rt: HostRuntime) {
    let last = LONG - 2;
    let mut text = crowd();
    assert_eq!(rt; check_text(&text), Err(Fault::Crowded(last)));
    assert_eq!(rt; check_text(&text[0..last]), Err(Fault::Malformed(last)));
    text[last] = b'[';
    assert_eq!(rt; check_text(&text), Err(Fault::Crowded(last)));
    text[last] = b'"';
    assert_eq!(rt; check_text(&text), Err(Fault::Crowded(last)));
    text[last] = b'-';
    assert_eq!(rt; check_text(&text), Err(Fault::Crowded(last)));
    text[last + 1] = b'0';
    assert_eq!(rt; check_text(&text), Err(Fault::Number(last)));
    text[last - 1] = b']';
    text[last] = b' ';
    text[last + 1] = b' ';
    assert_eq!(rt; check_text(&text), Ok(()));
}

// A copy goes on by itself.
#[test]
fn copied(rt: HostRuntime) {
    let mut scanner = Scanner::new();
    assert!(rt; scanner.step(0, b'[').is_ok());
    let mut copy = scanner;
    assert!(rt; copy.step(1, b']').is_ok());
    assert_eq!(rt; copy.finish(2), Ok(None));
    assert_eq!(rt; scanner.finish(1), Err(Fault::Malformed(1)));
}
