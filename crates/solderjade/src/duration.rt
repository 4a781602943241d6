// `duration TEXT..`: the nanoseconds of each text, or the word `text` where it is no duration.
ghost use Rattle.durations.specs.Duration.{duration};
ghost use Rattle.solderjade.specs.Shown.{shown_duration};
ghost use Rattle.std.specs.Prelude.{◌≡◌, IfOk};

use super::failure::Failure;
use durations::parse_go_duration;
use std::alloc::Global;

// The line for a word.
pub fn line(heap: Global, word: &[u8]) -> Result<Vec<u8>, Failure>
    ensures { IfOk result (λ v. v.items ≡ shown_duration (duration word.now)) }
{
    match parse_go_duration(word) {
        Some(nanoseconds) => Ok(format!(in heap; "{nanoseconds}")?.into_bytes()),
        None => Ok(Vec::from_slice(heap, b"text")?),
    }
}
