// Names, and paths made of them.
ghost use Rattle.rule_syntax.specs.Syntax.{every_name, name_bytes, names_of, proper_name};
ghost use Rattle.rule_syntax.specs.Mention.{first_name_of};
ghost use Rattle.std.specs.Option.{option_map};
ghost use Rattle.std.specs.Prelude.{◌≡◌};

use crate::word::{is_name_byte, split_point};
use escaping::is_reserved;

// So long a name may be.
const MAX_NAME: usize = 255;

fn are_name_bytes(text: &[u8]) -> bool
    ensures { result ≡ name_bytes text.now }
{
    text.iter().all(|byte| is_name_byte(*byte))
}

fn is_name(text: &[u8]) -> bool
    ensures { result ≡ proper_name text.now }
{
    let [first, ..] = text else {
        return false;
    };
    !first.is_ascii_digit() && text.len() <= MAX_NAME && are_name_bytes(text) && !is_reserved(text)
}

// Whether `text` is names joined by points.
pub fn is_path(text: &[u8]) -> bool
    ensures { result ≡ every_name (names_of text.now) }
{
    text.split(|byte| *byte == b'.').all(is_name)
}

// The first name of a path, and the path that follows it; nothing of an empty path.
pub fn first_name(path: &[u8]) -> Option<(&[u8], &[u8])>
    ensures { option_map (λ p. (p.0.now, p.1.now)) result ≡ first_name_of path.now }
{
    if path.is_empty() {
        return None;
    }
    let (name, more) = split_point(path);
    Some((name, more.unwrap_or(&[])))
}
