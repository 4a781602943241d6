// The commands that an image is made of.
ghost use Rattle.image.specs.Commands.{StandsFor, code};
ghost use Rattle.std.specs.Prelude.{◌≡◌};

// `Present` marks an optional that has a value, `Own` and `Old` what a rule sees as self and oldSelf.
#[derive(Clone, Copy, PartialEq, Eq, Debug)]
pub enum Command {
    Null = 0x00,
    False = 0x01,
    True = 0x02,
    Int = 0x03,
    Uint = 0x04,
    Empty = 0x05,
    Text = 0x06,
    Bytes = 0x07,
    Duration = 0x09,
    List = 0x0A,
    Map = 0x0B,
    Present = 0x0D,
    Own = 0x10,
    Old = 0x11,
}

// A byte that stands for no command.
#[derive(Clone, Copy, PartialEq, Eq, Debug)]
pub struct UnknownCommand(pub u8);

impl From<Command> for u8 {
    ghost from_gives = { λ command byte. byte ≡ code command };

    fn from(command: Command) -> u8 {
        command as u8
    }
}

impl TryFrom<u8> for Command {
    type Error = UnknownCommand;

    ghost try_from_gives = { StandsFor };

    fn try_from(byte: u8) -> Result<Command, UnknownCommand> {
        match byte {
            0x00 => Ok(Command::Null),
            0x01 => Ok(Command::False),
            0x02 => Ok(Command::True),
            0x03 => Ok(Command::Int),
            0x04 => Ok(Command::Uint),
            0x05 => Ok(Command::Empty),
            0x06 => Ok(Command::Text),
            0x07 => Ok(Command::Bytes),
            0x09 => Ok(Command::Duration),
            0x0A => Ok(Command::List),
            0x0B => Ok(Command::Map),
            0x0D => Ok(Command::Present),
            0x10 => Ok(Command::Own),
            0x11 => Ok(Command::Old),
            _ => Err(UnknownCommand(byte)),
        }
    }
}
