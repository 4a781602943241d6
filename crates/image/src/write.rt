// Writes an image, command by command. Each function writes its bytes whole or not at all; only a text
// that has no room behind its command and length leaves these two.
ghost use Rattle.std.specs.Prelude.{[], ◌∷◌};
ghost use Rattle.image.specs.Commands.{code};
ghost use Rattle.image.specs.Image.{scalar_image};
ghost use Rattle.image.specs.Laws.{Decodes, DecodesScopes, PrefixCode};
ghost use Rattle.image.specs.Typed.{bool, duration, int, null, uint};
ghost use Rattle.image.specs.Writing.{WritesSized};
ghost use Rattle.writer.specs.Writes.{Writes};
ghost use Rattle.writer.specs.Written.{be4, be8};

use crate::command::Command;
use writer::{BufferShort, ByteWriter};

fn put_alone(writer: &mut ByteWriter<'_>, command: Command) -> Result<(), BufferShort>
    ensures { Writes writer.old writer.new (code command ∷ []) result }
{
    writer.put_byte(u8::from(command))
}

// A command and a number in four bytes.
fn put_four(writer: &mut ByteWriter<'_>, command: Command, n: u32) -> Result<(), BufferShort>
    ensures { Writes writer.old writer.new (code command ∷ be4 n) result }
{
    let [a, b, c, d] = n.to_be_bytes();
    writer.put(&[u8::from(command), a, b, c, d])
}

// A command and a number in eight bytes. It has an array of its own length, and so is written whole or not at
// all: the length of an array cannot be computed from that of another, so one function cannot serve both.
fn put_eight(writer: &mut ByteWriter<'_>, command: Command, n: u64) -> Result<(), BufferShort>
    ensures { Writes writer.old writer.new (code command ∷ be8 n) result }
{
    let [a, b, c, d, e, f, g, h] = n.to_be_bytes();
    writer.put(&[u8::from(command), a, b, c, d, e, f, g, h])
}

// A command and bytes after their length. A length past four bytes is refused as a want of room.
fn put_sized(writer: &mut ByteWriter<'_>, command: Command, bytes: &[u8]) -> Result<(), BufferShort>
    ensures { WritesSized writer.old writer.new (code command) bytes.now result }
{
    let len = u32::try_from(bytes.len()).map_err(|_| BufferShort)?;
    put_four(writer, command, len)?;
    writer.put(bytes)
}

pub fn write_null(writer: &mut ByteWriter<'_>) -> Result<(), BufferShort>
    ensures { Writes writer.old writer.new (scalar_image null) result }
{
    put_alone(writer, Command::Null)
}

pub fn write_bool(writer: &mut ByteWriter<'_>, b: bool) -> Result<(), BufferShort>
    ensures { Writes writer.old writer.new (scalar_image (bool b)) result }
{
    let command = if b { Command::True } else { Command::False };
    put_alone(writer, command)
}

pub fn write_int(writer: &mut ByteWriter<'_>, z: i64) -> Result<(), BufferShort>
    ensures { Writes writer.old writer.new (scalar_image (int z)) result }
{
    put_eight(writer, Command::Int, z.cast_unsigned())
}

pub fn write_uint(writer: &mut ByteWriter<'_>, n: u64) -> Result<(), BufferShort>
    ensures { Writes writer.old writer.new (scalar_image (uint n)) result }
{
    put_eight(writer, Command::Uint, n)
}

pub fn write_duration(writer: &mut ByteWriter<'_>, nanoseconds: i64) -> Result<(), BufferShort>
    ensures { Writes writer.old writer.new (scalar_image (duration nanoseconds)) result }
{
    put_eight(writer, Command::Duration, nanoseconds.cast_unsigned())
}

pub fn write_text(writer: &mut ByteWriter<'_>, text: &[u8]) -> Result<(), BufferShort>
    ensures { WritesSized writer.old writer.new 0x06 text.now result }
{
    put_sized(writer, Command::Text, text)
}

pub fn write_bytes(writer: &mut ByteWriter<'_>, bytes: &[u8]) -> Result<(), BufferShort>
    ensures { WritesSized writer.old writer.new 0x07 bytes.now result }
{
    put_sized(writer, Command::Bytes, bytes)
}

// A list of `count` values; their images follow. Since images are a prefix code, they need no mark between them.
#[tactic(auto, using(crate::proofs::Laws::prefix_code, crate::proofs::Laws::decodes_images))]
pub fn begin_list(writer: &mut ByteWriter<'_>, count: u32) -> Result<(), BufferShort>
    ensures writes { Writes writer.old writer.new (0x0A ∷ be4 count) result }
    ensures prefix_code { PrefixCode }
    ensures decodes { Decodes }
{
    put_four(writer, Command::List, count)
}

// A map of `count` members; for each its key follows as a text, and its value's image.
pub fn begin_map(writer: &mut ByteWriter<'_>, count: u32) -> Result<(), BufferShort>
    ensures { Writes writer.old writer.new (0x0B ∷ be4 count) result }
{
    put_four(writer, Command::Map, count)
}

// What a rule sees as self; its image follows. From its bytes a scope is decoded as it was.
#[tactic(auto, using(crate::proofs::Laws::decodes_scopes))]
pub fn begin_self(writer: &mut ByteWriter<'_>) -> Result<(), BufferShort>
    ensures writes { Writes writer.old writer.new (0x10 ∷ []) result }
    ensures decodes { DecodesScopes }
{
    put_alone(writer, Command::Own)
}

// What a rule sees as oldSelf; its image follows, or that of an optional.
pub fn begin_old(writer: &mut ByteWriter<'_>) -> Result<(), BufferShort>
    ensures { Writes writer.old writer.new (0x11 ∷ []) result }
{
    put_alone(writer, Command::Old)
}

// An optional that is empty.
pub fn write_empty(writer: &mut ByteWriter<'_>) -> Result<(), BufferShort>
    ensures { Writes writer.old writer.new (0x05 ∷ []) result }
{
    put_alone(writer, Command::Empty)
}

// An optional that has a value; its image follows.
pub fn begin_some(writer: &mut ByteWriter<'_>) -> Result<(), BufferShort>
    ensures { Writes writer.old writer.new (0x0D ∷ []) result }
{
    put_alone(writer, Command::Present)
}
