// Decoding of base64, RFC 4648 section 4: the standard alphabet, padding required, spare bits zero, and no
// other sign anywhere. A text is checked as a whole before the first byte is written.
// The kit's crate `base64` is not used: it counts no bytes without a buffer for them, and leaves open what a decoding
// that fails has written.
ghost use Rattle.std.specs.Prelude.{◌≡◌, ◌+◌, ◌<◌, ◌≤◌, true, length, is_some, slice_index, IfSome};
ghost use Rattle.std.specs.Option.{option_map};
ghost use Rattle.base64_texts.specs.Base64.{sextet, one_octet, two_octets, three_octets, quantum, decoded, Base64Inverts};
ghost use Rattle.base64_texts.specs.Base64Decoder.{answer, filled, bytes_of, octets};
ghost use Rattle.writer.specs.Writes.{Writes};
ghost use Rattle.writer.specs.Written.{fits};

use writer::ByteWriter;

// Why a text was not decoded.
#[derive(Clone, Copy, PartialEq, Eq, Debug)]
pub enum DecodeError {
    // The text is no base64.
    NotBase64,
    // The text is base64, and the buffer is shorter than its bytes.
    BufferShort,
}

const PAD: u8 = b'=';

// What four signs stand for: fewer than three octets only where the signs are padded.
#[derive(Clone, Copy)]
enum Octets {
    One([u8; 1]),
    Two([u8; 2]),
    Three([u8; 3]),
}

impl Octets {
    // The octets, first to last.
    fn as_slice(&self) -> &[u8]
        ensures value { result.now ≡ octets self.now }
        ensures few { length result.now ≤ 3 }
    {
        match self {
            Octets::One(octets) => octets,
            Octets::Two(octets) => octets,
            Octets::Three(octets) => octets,
        }
    }
}

// This and the four functions that follow are inlined where they are called, since then the octets need no memory: a text is
// gone through several times, four signs at a time.

// The six bits that a sign stands for, or `None` where it is not of the alphabet.
#[inline(always)]
fn six_bits(sign: u8) -> Option<u8>
    ensures value { result ≡ sextet sign }
    ensures small { IfSome result (λ v. v < 64) }
{
    match sign {
        b'A'..=b'Z' => Some(sign - b'A'),
        b'a'..=b'z' => Some(sign - b'a' + 26),
        b'0'..=b'9' => Some(sign - b'0' + 52),
        b'+' => Some(62),
        b'/' => Some(63),
        _ => None,
    }
}

// `XX==`: eight of the twelve bits are the octet, and the four spare ones have to be zero.
#[inline(always)]
fn one(a: u8, b: u8) -> Option<[u8; 1]>
    ensures { result ≡ one_octet a b }
{
    let a = six_bits(a)?;
    let b = six_bits(b)?;
    (b % 16 == 0).then_some([a * 4 + b / 16])
}

// `XXX=`: sixteen of the eighteen bits are the octets, and the two spare ones have to be zero.
#[inline(always)]
fn two(a: u8, b: u8, c: u8) -> Option<[u8; 2]>
    ensures { result ≡ two_octets a b c }
{
    let a = six_bits(a)?;
    let b = six_bits(b)?;
    let c = six_bits(c)?;
    (c % 4 == 0).then_some([a * 4 + b / 16, b % 16 * 16 + c / 4])
}

// `XXXX`: all twenty-four bits are octets.
#[inline(always)]
fn three(a: u8, b: u8, c: u8, d: u8) -> Option<[u8; 3]>
    ensures { result ≡ three_octets a b c d }
{
    let a = six_bits(a)?;
    let b = six_bits(b)?;
    let c = six_bits(c)?;
    let d = six_bits(d)?;
    Some([a * 4 + b / 16, b % 16 * 16 + c / 4, c % 4 * 64 + d])
}

// The octets of four signs. Only the last four of a text may be padded.
#[inline(always)]
fn four_signs(signs: [u8; 4], last: bool) -> Option<Octets>
    ensures { option_map octets result ≡ quantum last (slice_index signs 0) (slice_index signs 1) (slice_index signs 2) (slice_index signs 3) }
{
    match signs {
        [a, b, PAD, PAD] if last => one(a, b).map(Octets::One),
        [a, b, c, PAD] if last => two(a, b, c).map(Octets::Two),
        [a, b, c, d] => three(a, b, c, d).map(Octets::Three),
    }
}

// The number of bytes that a text stands for, or `None` where it is no base64.
pub fn decoded_len(text: &[u8]) -> Option<usize>
    ensures { result ≡ option_map length (decoded text.now) }
{
    let mut left = text;
    let mut len = 0;
    while let Some((signs, rest)) = left.split_first_chunk::<4>() {
        len += four_signs(*signs, rest.is_empty())?.as_slice().len();
        left = rest;
    }
    left.is_empty().then_some(len)
}

// Writes the bytes of a text that has been checked to where they have room, so that neither error comes.
fn write_all(text: &[u8], writer: &mut ByteWriter<'_>) -> Result<(), DecodeError>
    requires base64 { is_some (decoded text.now) ≡ true }
    requires room { fits writer.old.out.now writer.old.at (bytes_of text.now) ≡ true }
    ensures { Writes writer.old writer.new (bytes_of text.now) result }
{
    let mut left = text;
    while let Some((signs, rest)) = left.split_first_chunk::<4>() {
        let group = four_signs(*signs, rest.is_empty()).ok_or(DecodeError::NotBase64)?;
        writer
            .put(group.as_slice())
            .map_err(|_| DecodeError::BufferShort)?;
        left = rest;
    }
    Ok(())
}

// Decodes a text to the front of `out`, and answers the number of bytes. The bytes of `out` beyond them stay, and
// all of `out` stays where the answer is an error.
#[tactic(auto, using(crate::proofs::Base64Laws::base64_inverts))]
pub fn decode(text: &[u8], out: &mut [u8]) -> Result<usize, DecodeError>
    ensures answer { result ≡ answer (decoded text.now) (length out.old) }
    ensures buffer { out.new ≡ filled (decoded text.now) out.old }
    ensures inverts { Base64Inverts }
{
    let len = decoded_len(text).ok_or(DecodeError::NotBase64)?;
    if out.len() < len {
        return Err(DecodeError::BufferShort);
    }
    write_all(text, &mut ByteWriter::new(out))?;
    Ok(len)
}
