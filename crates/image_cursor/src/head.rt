// One command of an image with its operand, read where it lies.
ghost use Rattle.std.specs.Prelude.{◌≡◌, ◌+◌, ◌^◌, ◌<◌, IfSome, Some};
ghost use Rattle.image.specs.Decode.{operand as operand_of, seen};
ghost use Rattle.image_cursor.specs.Heads.{Placed, parts_of, seen_by};
ghost use Rattle.image_cursor.specs.Operands.{front4, front8, front_command, front_part};
ghost use Rattle.image_cursor.specs.Tails.{SameEnd, left};
ghost use Rattle.std.specs.Option.{option_map};

use crate::tail::Tail;
use image::command::Command;

// Bytes of an image, with the position at which they begin.
#[derive(Clone, Copy)]
pub struct Part<'a> {
    pub text: &'a [u8],
    pub place: usize,
}

// A value's command with its operand. A list's values and a map's members follow behind it.
#[derive(Clone, Copy)]
pub enum Head<'a> {
    Null,
    Bool(bool),
    Int(i64),
    Uint(u64),
    Text(Part<'a>),
    Bytes(Part<'a>),
    Duration(i64),
    List(u32),
    Map(u32),
}

impl Head<'_> {
    // How many values stand behind a command until its value is whole; a key counts as a value.
    pub(crate) fn parts(self) -> usize
        ensures value { result ≡ parts_of self.entry }
        ensures small { result < 2 ^ 33 }
    {
        match self {
            Head::List(n) => n as usize,
            Head::Map(n) => 2 * n as usize,
            _ => 0,
        }
    }
}

// Each of these reads a thing at the front, and answers it with what stands behind it.
impl<'a> Tail<'a> {
    // A byte that stands for a command.
    pub(crate) fn command(self) -> Option<(Command, Tail<'a>)>
        ensures value { option_map left result ≡ front_command self.entry.rest.now }
        ensures end { IfSome result (λ r. SameEnd self.entry r.1) }
    {
        let command = Command::try_from(*self.rest.first()?).ok()?;
        Some((command, self.behind(1)))
    }

    // A number in four bytes. Its twin of eight differs in the number's type too, and all else is `first_chunk`'s.
    fn four(self) -> Option<(u32, Tail<'a>)>
        ensures value { option_map left result ≡ front4 self.entry.rest.now }
        ensures end { IfSome result (λ r. SameEnd self.entry r.1) }
    {
        let four = self.rest.first_chunk::<4>()?;
        Some((u32::from_be_bytes(*four), self.behind(4)))
    }

    // A number in eight bytes.
    fn eight(self) -> Option<(u64, Tail<'a>)>
        ensures value { option_map left result ≡ front8 self.entry.rest.now }
        ensures end { IfSome result (λ r. SameEnd self.entry r.1) }
    {
        let eight = self.rest.first_chunk::<8>()?;
        Some((u64::from_be_bytes(*eight), self.behind(8)))
    }

    // A length in four bytes, and so many bytes.
    fn part(self) -> Option<(Part<'a>, Tail<'a>)>
        ensures value { option_map (λ r. (r.0.text.now, r.1.rest.now)) result ≡ front_part self.entry.rest.now }
        ensures place { IfSome result (λ r. r.0.place ≡ self.entry.place + 4) }
        ensures end { IfSome result (λ r. SameEnd self.entry r.1) }
    {
        let (len, from) = self.four()?;
        let len = len as usize;
        let text = from.rest.get(..len)?;
        let part = Part {
            text,
            place: from.place,
        };
        Some((part, from.behind(len)))
    }

    // The operand of a command.
    fn operand(self, command: Command) -> Option<(Head<'a>, Tail<'a>)>
        ensures value { option_map seen_by result ≡ operand_of (Some command) self.entry.rest.now }
        ensures place { IfSome result (λ r. Placed (self.entry.place + 4) r.0) }
        ensures end { IfSome result (λ r. SameEnd self.entry r.1) }
    {
        match command {
            Command::Null => Some((Head::Null, self)),
            Command::False => Some((Head::Bool(false), self)),
            Command::True => Some((Head::Bool(true), self)),
            Command::Int => {
                let (n, behind) = self.eight()?;
                Some((Head::Int(n.cast_signed()), behind))
            }
            Command::Uint => {
                let (n, behind) = self.eight()?;
                Some((Head::Uint(n), behind))
            }
            Command::Duration => {
                let (n, behind) = self.eight()?;
                Some((Head::Duration(n.cast_signed()), behind))
            }
            Command::List => {
                let (count, behind) = self.four()?;
                Some((Head::List(count), behind))
            }
            Command::Map => {
                let (count, behind) = self.four()?;
                Some((Head::Map(count), behind))
            }
            Command::Text => {
                let (part, behind) = self.part()?;
                Some((Head::Text(part), behind))
            }
            Command::Bytes => {
                let (part, behind) = self.part()?;
                Some((Head::Bytes(part), behind))
            }
            Command::Empty | Command::Present | Command::Own | Command::Old => None,
        }
    }

    // A command with its operand.
    #[tactic(auto, using(crate::proofs::Fronts::seen_front))]
    pub(crate) fn head(self) -> Option<(Head<'a>, Tail<'a>)>
        ensures value { option_map seen_by result ≡ seen self.entry.rest.now }
        ensures place { IfSome result (λ r. Placed (self.entry.place + 5) r.0) }
        ensures end { IfSome result (λ r. SameEnd self.entry r.1) }
    {
        let (command, behind) = self.command()?;
        behind.operand(command)
    }
}
