// `escape NAME..`: each name as a rule writes it.
ghost use Rattle.escaping.specs.Escape.{escape};
ghost use Rattle.std.specs.Prelude.{◌≡◌, IfOk};

use super::failure::Failure;
use escaping::{escape_field_name, escaped_len};
use std::alloc::Global;

// The line for a word.
pub fn line(heap: Global, word: &[u8]) -> Result<Vec<u8>, Failure>
    ensures { IfOk result (λ v. v.items ≡ escape word.now) }
{
    let len = escaped_len(word).ok_or(Failure::Memory)?;
    let mut line = vec![in heap; 0u8; len]?;
    escape_field_name(word, &mut line).map_err(|_| Failure::Memory)?;
    Ok(line)
}
