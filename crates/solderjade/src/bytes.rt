// `bytes TEXT..`: the bytes of each base64 text in hexadecimal, or the word `text` where it is none.
ghost use Rattle.base64_texts.specs.Base64.{decoded};
ghost use Rattle.solderjade.specs.Shown.{hexed, shown_bytes};
ghost use Rattle.std.specs.Prelude.{◌≡◌, IfOk};

use super::failure::Failure;
use base64_texts::{decode, decoded_len};
use std::alloc::Global;

// The line for a word.
pub fn line(heap: Global, word: &[u8]) -> Result<Vec<u8>, Failure>
    ensures { IfOk result (λ v. v.items ≡ shown_bytes (decoded word.now)) }
{
    let Some(len) = decoded_len(word) else {
        return Ok(Vec::from_slice(heap, b"text")?);
    };
    let mut room = vec![in heap; 0u8; len]?;
    decode(word, &mut room).map_err(|_| Failure::Memory)?;
    digits(heap, &room)
}

// Two digits for each byte.
#[tactic(auto, using(crate::proofs::Showing::encodes_hexed))]
fn digits(heap: Global, bytes: &[u8]) -> Result<Vec<u8>, Failure>
    ensures { IfOk result (λ v. v.items ≡ hexed bytes.now) }
{
    Ok(hex::encode(heap, bytes)?.into_bytes())
}
