// Texts as JSON strings.
ghost use Rattle.std.specs.Prelude.{◌≡◌, ◌<◌, ◌++◌, OnOk};
ghost use Rattle.json_writer.specs.Compact.{control_escape, escaped, quoted, short_letter};

use std::alloc::AllocError;

// The letter of a control character's short escape.
fn letter_of(b: u8) -> Option<u8>
    ensures { result ≡ short_letter b }
{
    match b {
        8 => Some(b'b'),
        9 => Some(b't'),
        10 => Some(b'n'),
        12 => Some(b'f'),
        13 => Some(b'r'),
        _ => None,
    }
}

fn push_control(b: u8, out: &mut Vec<u8>) -> Result<(), AllocError>
    requires { b < 32 }
    ensures { OnOk result (out.new.items ≡ out.old.items ++ control_escape b (short_letter b)) }
{
    match letter_of(b) {
        Some(letter) => out.extend_from_slice(&[b'\\', letter]),
        None => {
            let mut escape = *b"\\u00__";
            let _ = hex::encode_to_slice([b], &mut escape[4..]);
            out.extend_from_slice(&escape)
        }
    }
}

fn push_escaped(b: u8, out: &mut Vec<u8>) -> Result<(), AllocError>
    ensures { OnOk result (out.new.items ≡ out.old.items ++ escaped b) }
{
    match b {
        0..32 => push_control(b, out),
        b'"' | b'\\' => out.extend_from_slice(&[b'\\', b]),
        _ => Ok(out.push(b)?),
    }
}

// Appends a text as a string.
#[tactic(auto, unfolding(crate::specs::Compact::quoted))]
pub fn push_quoted(text: &[u8], out: &mut Vec<u8>) -> Result<(), AllocError>
    ensures { OnOk result (out.new.items ≡ out.old.items ++ quoted text.now) }
{
    out.push(b'"')?;
    for b in text {
        push_escaped(*b, out)?;
    }
    Ok(out.push(b'"')?)
}
