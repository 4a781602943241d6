// A verb that prints a line for each of its words.
ghost use Rattle.std.specs.Prelude.{◌≡◌, ℕ, List, [], ◌∷◌, ◌++◌, map, IfOk, string_bytes, OnOk};
ghost use Rattle.solderjade.specs.Shown.{lines_of, Prints};

use super::failure::Failure;
use std::alloc::Global;

// Appends a line and its end.
fn push_line(lines: &mut Vec<u8>, line: &[u8]) -> Result<(), Failure>
    ensures { OnOk result (lines.new.items ≡ lines.old.items ++ (line.now ++ 10 ∷ [])) }
{
    lines.extend_from_slice(line)?;
    lines.push(b'\n')?;
    Ok(())
}

// The lines that `line` gives for all words, in their order.
pub fn print_all<F: Fn(Global, &[u8]) -> Result<Vec<u8>, Failure>>(
    heap: Global,
    words: &[String],
    line: F,
) -> Result<Vec<u8>, Failure>
    requires { F.IsAlwaysCallable line }
    ensures { (prints : List ℕ → List ℕ) → Prints F.Fn line prints → IfOk result (λ v. v.items ≡ lines_of prints (map string_bytes words.now)) }
{
    let mut lines = Vec::new(heap);
    for word in words {
        let printed = line(heap, word.as_bytes())?;
        push_line(&mut lines, &printed)?;
    }
    Ok(lines)
}
