// A name's escape: its length, and its bytes written into a lent buffer.
ghost use Rattle.std.specs.Prelude.{◌≡◌, length};
ghost use Rattle.escaping.specs.Escape.{escape};
ghost use Rattle.escaping.specs.Answers.{counted, wrote};
ghost use Rattle.writer.specs.Written.{written};

use super::piece::Pieces;
use writer::{BufferShort, ByteWriter};

// The length of the escape, or none where no `usize` holds it.
pub fn escaped_len(name: &[u8]) -> Option<usize>
    ensures { result ≡ counted (length (escape name.now)) }
{
    let mut len: usize = 0;
    for piece in Pieces::of(name) {
        len = len.checked_add(piece.len())?;
    }
    Some(len)
}

// Writes the escape of a name at the front of `out`, and says how long it is; where it has no room, nothing is written.
#[tactic(auto, using(crate::proofs::Steps::all_written))]
pub fn escape_field_name(name: &[u8], out: &mut [u8]) -> Result<usize, BufferShort>
    ensures answer { result ≡ wrote (length (escape name.now)) (length out.old) (record {}) }
    ensures out { out.new ≡ written out.old 0 (escape name.now) }
{
    let len = escaped_len(name)
        .filter(|len| *len <= out.len())
        .ok_or(BufferShort)?;
    let mut writer = ByteWriter::new(out);
    for piece in Pieces::of(name) {
        writer.put(piece)?;
    }
    Ok(len)
}
