// The pieces that a text falls into before it is known what they say.
ghost use Rattle.rule_syntax.specs.Syntax.{before_dot, behind_word, leading_word, name_byte, past_dot, unspaced, word_byte};
ghost use Rattle.std.specs.Option.{option_map};
ghost use Rattle.std.specs.Prelude.{◌≡◌};

pub fn is_name_byte(byte: u8) -> bool
    ensures { result ≡ name_byte byte }
{
    byte.is_ascii_alphanumeric() || byte == b'_'
}

// A byte that operands are written with.
fn is_word_byte(byte: u8) -> bool
    ensures { result ≡ word_byte byte }
{
    is_name_byte(byte) || byte == b'.' || byte == b'-'
}

// What follows the spaces at the front of `text`.
pub fn skip_spaces(text: &[u8]) -> &[u8]
    ensures { result.now ≡ unspaced text.now }
{
    let start = text
        .iter()
        .position(|byte| *byte != b' ')
        .unwrap_or(text.len());
    &text[start..]
}

// The bytes at the front of `text` that an operand may be written with, and what follows them.
pub fn split_word(text: &[u8]) -> (&[u8], &[u8])
    ensures front { result.0.now ≡ leading_word text.now }
    ensures back { result.1.now ≡ behind_word text.now }
{
    let len = text
        .iter()
        .position(|byte| !is_word_byte(*byte))
        .unwrap_or(text.len());
    text.split_at(len)
}

// What stands before the first point of `text`, and what behind it if there is one.
pub fn split_point(text: &[u8]) -> (&[u8], Option<&[u8]>)
    ensures front { result.0.now ≡ before_dot text.now }
    ensures back { option_map (λ x. x.now) result.1 ≡ past_dot text.now }
{
    match text.iter().position(|byte| *byte == b'.') {
        Some(point) => (&text[..point], Some(&text[point + 1..])),
        None => (text, None),
    }
}
