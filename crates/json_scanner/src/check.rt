// A whole text.
ghost use Rattle.json_scanner.specs.Machine.{forgotten, fresh, scan};
ghost use Rattle.json_scanner.specs.Theorem.{Alone, Reads};
ghost use Rattle.std.specs.Prelude.{◌≡◌};

use super::modes::Fault;
use super::scanner::Scanner;

// What the scanner answers, byte by byte; `check_text` says what that means of the text.
fn scan_text(text: &[u8]) -> Result<(), Fault>
    ensures { result ≡ forgotten (scan fresh 0 text.now) }
{
    let mut scanner = Scanner::new();
    for (i, b) in text.iter().enumerate() {
        scanner.step(i, *b)?;
    }
    scanner.finish(text.len())?;
    Ok(())
}

// Whether a text is JSON within the limits, and if not, its first fault.
pub fn check_text(text: &[u8]) -> Result<(), Fault>
    ensures reads { Reads text.now result }
    ensures alone { Alone text.now result }
{
    scan_text(text)
}
