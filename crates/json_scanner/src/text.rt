// Inside a string: characters in UTF-8, and escapes.
ghost use Rattle.json_scanner.specs.Grammar.{pair, plain, second, simple, tail, unit};
ghost use Rattle.json_scanner.specs.Bytes.{digit_of, escaped, led, paired, spelled, spells, tailed, united};
ghost use Rattle.std.specs.Prelude.{◌≡◌, Some, None};

use super::modes::{Hex, Inside, Piece, Spelled, Tail};

// A byte that leads on, and adds nothing yet.
fn silent(at: Inside) -> Option<Spelled>
    ensures { result ≡ spells at None }
{
    Some(Spelled { at, piece: None })
}

fn adding(at: Inside, piece: Piece) -> Option<Spelled>
    ensures { result ≡ spells at (Some piece) }
{
    Some(Spelled {
        at,
        piece: Some(piece),
    })
}

// A byte that stands for itself.
fn is_plain(b: u8) -> bool
    ensures { result ≡ plain b }
{
    matches!(b, 0x20..=0x7f) && b != b'"' && b != b'\\'
}

fn is_tail(b: u8) -> bool
    ensures { result ≡ tail b }
{
    matches!(b, 0x80..=0xbf)
}

// The second byte of a sequence of three or four: no overlong form, no surrogate, nothing above U+10FFFF.
fn is_second(a: u8, b: u8) -> bool
    ensures { result ≡ second a b }
{
    match a {
        0xe0 => matches!(b, 0xa0..=0xbf),
        0xed => matches!(b, 0x80..=0x9f),
        0xf0 => matches!(b, 0x90..=0xbf),
        0xf4 => matches!(b, 0x80..=0x8f),
        _ => is_tail(b),
    }
}

// The first byte of a character.
fn lead(b: u8) -> Option<Spelled>
    ensures { result ≡ led b }
{
    match b {
        _ if is_plain(b) => adding(Inside::Plain, Piece::Byte(b)),
        0xc2..=0xdf => adding(Inside::Raw(Tail::One), Piece::Byte(b)),
        0xe0..=0xef => adding(Inside::Raw(Tail::SecondOfThree(b)), Piece::Byte(b)),
        0xf0..=0xf4 => adding(Inside::Raw(Tail::SecondOfFour(b)), Piece::Byte(b)),
        b'\\' => silent(Inside::Escape),
        _ => None,
    }
}

// A further byte of a UTF-8 sequence.
fn follow(rest: Tail, b: u8) -> Option<Spelled>
    ensures { result ≡ tailed rest b }
{
    let (fits, at) = match rest {
        Tail::One => (is_tail(b), Inside::Plain),
        Tail::Two => (is_tail(b), Inside::Raw(Tail::One)),
        Tail::SecondOfThree(a) => (is_second(a, b), Inside::Raw(Tail::One)),
        Tail::SecondOfFour(a) => (is_second(a, b), Inside::Raw(Tail::Two)),
    };
    if fits {
        adding(at, Piece::Byte(b))
    } else {
        None
    }
}

// The character that a backslash and a byte stand for.
fn simple_escape(b: u8) -> Option<u8>
    ensures { result ≡ simple b }
{
    match b {
        b'"' | b'\\' | b'/' => Some(b),
        b'b' => Some(8),
        b'f' => Some(12),
        b'n' => Some(b'\n'),
        b'r' => Some(b'\r'),
        b't' => Some(b'\t'),
        _ => None,
    }
}

// The byte behind a backslash.
fn escape(b: u8) -> Option<Spelled>
    ensures { result ≡ escaped b }
{
    match simple_escape(b) {
        Some(c) => adding(Inside::Plain, Piece::Byte(c)),
        None if b == b'u' => silent(Inside::Unit(Hex::Zero)),
        None => None,
    }
}

fn hex_digit(b: u8) -> Option<u8>
    ensures { result ≡ digit_of b }
{
    char::from(b).to_digit(16).map(|d| d as u8)
}

fn code_unit(a: u8, b: u8, c: u8, d: u8) -> u32
    ensures { result ≡ unit a b c d }
{
    ((u32::from(a) * 16 + u32::from(b)) * 16 + u32::from(c)) * 16 + u32::from(d)
}

// A digit of a code unit that is a character, or a high surrogate: from \ud8 to \udb.
fn unit_digit(digits: Hex, d: u8) -> Option<Spelled>
    ensures { result ≡ united digits d }
{
    match digits {
        Hex::Zero => silent(Inside::Unit(Hex::One(d))),
        Hex::One(13) if d >= 12 => None,
        Hex::One(a) => silent(Inside::Unit(Hex::Two(a, d))),
        Hex::Two(a, b) => silent(Inside::Unit(Hex::Three(a, b, d))),
        Hex::Three(a, b, c) => {
            let unit = code_unit(a, b, c, d);
            match char::from_u32(unit) {
                Some(c) => adding(Inside::Plain, Piece::Char(c)),
                None => silent(Inside::High(unit)),
            }
        }
    }
}

// The character of a surrogate pair.
fn joined(high: u32, low: u32) -> char
    ensures { result ≡ pair high low }
{
    char::from_u32(0x1_0000 + high % 0x400 * 0x400 + low % 0x400).unwrap()
}

// A digit of the low surrogate behind a high one: from \udc to \udf.
fn low_digit(high: u32, digits: Hex, d: u8) -> Option<Spelled>
    ensures { result ≡ paired high digits d }
{
    match digits {
        Hex::Zero if d == 13 => silent(Inside::Low(high, Hex::One(d))),
        Hex::One(a) if d >= 12 => silent(Inside::Low(high, Hex::Two(a, d))),
        Hex::Zero | Hex::One(_) => None,
        Hex::Two(a, b) => silent(Inside::Low(high, Hex::Three(a, b, d))),
        Hex::Three(a, b, c) => {
            let low = code_unit(a, b, c, d);
            adding(Inside::Plain, Piece::Char(joined(high, low)))
        }
    }
}

// A byte of a string, but for the quote that ends it: where it leads, and what it adds to the text.
pub fn spell(at: Inside, b: u8) -> Option<Spelled>
    ensures { result ≡ spelled at b }
{
    match at {
        Inside::Plain => lead(b),
        Inside::Raw(rest) => follow(rest, b),
        Inside::Escape => escape(b),
        Inside::Unit(digits) => unit_digit(digits, hex_digit(b)?),
        Inside::High(high) if b == b'\\' => silent(Inside::HighEscape(high)),
        Inside::HighEscape(high) if b == b'u' => silent(Inside::Low(high, Hex::Zero)),
        Inside::High(_) | Inside::HighEscape(_) => None,
        Inside::Low(high, digits) => low_digit(high, digits, hex_digit(b)?),
    }
}
