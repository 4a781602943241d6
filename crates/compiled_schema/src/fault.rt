// Why a text is refused: which text, where, and what for.
ghost use Rattle.std.specs.Prelude.{◌≡◌, Some};
ghost use Rattle.compiled_schema.specs.Faults.{load_fault, read_fault, refusal_number, refusal_word};

use compilation::fault::LoadFault;
use json_reader::fault::Fault as ReadFault;
use json_scanner::modes::Fault as Flaw;
use json_values::parts::Source;
use std::fmt;

#[derive(Clone, Copy, PartialEq, Eq, Debug)]
pub enum Refusal {
    Malformed,
    Nested,
    Number,
    Crowded,
    TreeFull,
    RulesFull,
    ProgramsFull,
}

impl From<Refusal> for u8 {
    ghost from_gives = { λ r n. n ≡ refusal_number r };

    fn from(refusal: Refusal) -> u8 {
        match refusal {
            Refusal::Malformed => 1,
            Refusal::Nested => 2,
            Refusal::Number => 3,
            Refusal::Crowded => 4,
            Refusal::TreeFull => 5,
            Refusal::RulesFull => 6,
            Refusal::ProgramsFull => 7,
        }
    }
}

impl Refusal {
    pub fn word(self) -> &'static str
        ensures { result.now ≡ refusal_word self }
    {
        match self {
            Refusal::Malformed => "malformed",
            Refusal::Nested => "nested",
            Refusal::Number => "number",
            Refusal::Crowded => "crowded",
            Refusal::TreeFull => "tree full",
            Refusal::RulesFull => "rules full",
            Refusal::ProgramsFull => "programs full",
        }
    }
}

impl fmt::Display for Refusal {
    ghost output = { λ r. Some (refusal_word r) };

    fn fmt<W: fmt::Write>(&self, f: &mut fmt::Formatter<W>) -> fmt::Result {
        f.write_str(self.word())
    }
}

// The text, the number of bytes before the fault, and the refusal.
#[derive(Clone, Copy, PartialEq, Eq, Debug)]
pub struct Fault {
    pub text: Source,
    pub place: usize,
    pub refusal: Refusal,
}

impl From<ReadFault> for Fault {
    ghost from_gives = { λ e r. r ≡ read_fault e };

    fn from(fault: ReadFault) -> Fault {
        let text = fault.text;
        let (place, refusal) = match fault.flaw {
            Flaw::Malformed(place) => (place, Refusal::Malformed),
            Flaw::Nested(place) => (place, Refusal::Nested),
            Flaw::Number(place) => (place, Refusal::Number),
            Flaw::Crowded(place) => (place, Refusal::Crowded),
        };
        Fault {
            text,
            place,
            refusal,
        }
    }
}

impl From<LoadFault> for Fault {
    ghost from_gives = { λ e r. r ≡ load_fault e };

    fn from(fault: LoadFault) -> Fault {
        let (place, refusal) = match fault {
            LoadFault::TreeFull(place) => (place, Refusal::TreeFull),
            LoadFault::RulesFull(place) => (place, Refusal::RulesFull),
            LoadFault::ProgramsFull(place) => (place, Refusal::ProgramsFull),
        };
        Fault {
            text: Source::Schema,
            place,
            refusal,
        }
    }
}
