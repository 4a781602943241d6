// What the program can do, for a person.
ghost use Rattle.std.specs.Prelude.{◌≡◌, [], ◌∷◌, ◌++◌, IfOk};

use super::failure::Failure;
use std::alloc::Global;

pub const USAGE: &str = "usage: solderjade VERB WORD..

  bytes TEXT..     print the bytes of each base64 text in hexadecimal, or `text`
  duration TEXT..  print the nanoseconds of each duration, or `text`
  escape NAME..    print each name as a rule writes it
  help             print this text

Each answer is a line of its own.";

// The text, and its line's end.
pub fn help(heap: Global) -> Result<Vec<u8>, Failure>
    ensures { IfOk result (λ v. v.items ≡ USAGE.now ++ 10 ∷ []) }
{
    Ok(format!(in heap; "{USAGE}\n")?.into_bytes())
}
