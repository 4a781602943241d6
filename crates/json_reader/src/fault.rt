// Why a text is refused.
ghost use Rattle.json_reader.specs.Flaws.{flaw_number, flaw_place};
ghost use Rattle.std.specs.Prelude.{◌≡◌};

use json_scanner::modes::Fault as Flaw;
use json_values::parts::Source;

// The text, and its flaw.
#[derive(Clone, Copy, PartialEq, Eq, Debug)]
pub struct Fault {
    pub text: Source,
    pub flaw: Flaw,
}

impl Fault {
    // 1 malformed, 2 nested, 3 number, 4 crowded. The numbers are a public format, and the scanner's fault has none.
    pub fn number(self) -> u8
        ensures { result ≡ flaw_number self.flaw }
    {
        match self.flaw {
            Flaw::Malformed(_) => 1,
            Flaw::Nested(_) => 2,
            Flaw::Number(_) => 3,
            Flaw::Crowded(_) => 4,
        }
    }

    // How many bytes of the text are before the flaw.
    pub fn place(self) -> usize
        ensures { result ≡ flaw_place self.flaw }
    {
        match self.flaw {
            Flaw::Malformed(i) | Flaw::Nested(i) | Flaw::Number(i) | Flaw::Crowded(i) => i,
        }
    }
}
