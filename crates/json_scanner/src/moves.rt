// What a byte does in each mode.
ghost use Rattle.json_scanner.specs.Grammar.{white};
ghost use Rattle.json_scanner.specs.Bytes.{begun, beginning, broken_off, closing, followed, judged, keyed, leads, letter, moved, noted, number_fault, opening, quoted, spelling};
ghost use Rattle.std.specs.Prelude.{◌≡◌};

use super::modes::{
    Act, Around, Container, DEPTH, Fault, Figures, Inside, Mode, Move, NumberError, Role, Spelled,
    VALUES, Word,
};
use super::number::figure_move;
use super::text::spell;

fn is_white(b: u8) -> bool
    ensures { result ≡ white b }
{
    matches!(b, b' ' | b'\t' | b'\n' | b'\r')
}

impl Move {
    fn to(mode: Mode, act: Act) -> Move
        ensures { result ≡ leads mode act }
    {
        Move { mode, act }
    }
}

fn next_letter(word: Word) -> u8
    ensures { result ≡ letter word }
{
    match word {
        Word::N | Word::Tr => b'u',
        Word::Nu | Word::Nul | Word::Fa => b'l',
        Word::T => b'r',
        Word::Tru | Word::Fals => b'e',
        Word::F => b'a',
        Word::Fal => b's',
    }
}

// What the next letter of a literal does.
fn spell_word(word: Word) -> Move
    ensures { result ≡ spelling word }
{
    match word {
        Word::N => Move::to(Mode::Word(Word::Nu), Act::Stay),
        Word::Nu => Move::to(Mode::Word(Word::Nul), Act::Stay),
        Word::Nul => Move::to(Mode::After, Act::Null),
        Word::T => Move::to(Mode::Word(Word::Tr), Act::Stay),
        Word::Tr => Move::to(Mode::Word(Word::Tru), Act::Stay),
        Word::Tru => Move::to(Mode::After, Act::Bool(true)),
        Word::F => Move::to(Mode::Word(Word::Fa), Act::Stay),
        Word::Fa => Move::to(Mode::Word(Word::Fal), Act::Stay),
        Word::Fal => Move::to(Mode::Word(Word::Fals), Act::Stay),
        Word::Fals => Move::to(Mode::After, Act::Bool(false)),
    }
}

fn is_closing(at: Inside, b: u8) -> bool
    ensures { result ≡ closing at b }
{
    matches!((at, b), (Inside::Plain, b'"'))
}

// The end of a string.
fn close_quote(role: Role) -> Move
    ensures { result ≡ quoted role }
{
    match role {
        Role::Key => Move::to(Mode::Colon, Act::Key),
        Role::Value => Move::to(Mode::After, Act::Text),
    }
}

impl Around {
    // A list or an object opens.
    fn open(self, mode: Mode, container: Container) -> Result<Move, Fault>
        ensures { result ≡ opening self mode container }
    {
        if self.depth >= DEPTH {
            Err(Fault::Nested(self.place))
        } else if self.values >= VALUES {
            Err(Fault::Crowded(self.place))
        } else {
            Ok(Move::to(mode, Act::Open(container)))
        }
    }

    // A literal or a text begins.
    fn begin_scalar(self, mode: Mode) -> Result<Move, Fault>
        ensures { result ≡ beginning self mode }
    {
        if self.values >= VALUES {
            Err(Fault::Crowded(self.place))
        } else {
            Ok(Move::to(mode, Act::Begin))
        }
    }

    // Where a value is wanted.
    fn begin(self, stay: Mode, b: u8) -> Result<Move, Fault>
        ensures { result ≡ begun stay self b }
    {
        match b {
            _ if is_white(b) => Ok(Move::to(stay, Act::Stay)),
            b'[' => self.open(Mode::First, Container::List),
            b'{' => self.open(Mode::FirstKey, Container::Object),
            b'-' => Ok(Move::to(Mode::Number(Figures::Minus, self.place), Act::Stay)),
            b'0'..=b'9' => {
                let size = u64::from(b - b'0');
                let figures = Figures::Whole { minus: false, size };
                Ok(Move::to(Mode::Number(figures, self.place), Act::Stay))
            }
            b'"' => self.begin_scalar(Mode::Text(Role::Value, Inside::Plain)),
            b'n' => self.begin_scalar(Mode::Word(Word::N)),
            b't' => self.begin_scalar(Mode::Word(Word::T)),
            b'f' => self.begin_scalar(Mode::Word(Word::F)),
            _ => Err(Fault::Malformed(self.place)),
        }
    }

    // Where a key is wanted.
    fn begin_key(self, stay: Mode, b: u8) -> Result<Move, Fault>
        ensures { result ≡ keyed stay self.place b }
    {
        match b {
            _ if is_white(b) => Ok(Move::to(stay, Act::Stay)),
            b'"' => Ok(Move::to(Mode::Text(Role::Key, Inside::Plain), Act::Stay)),
            _ => Err(Fault::Malformed(self.place)),
        }
    }

    // Behind a value.
    fn follow_value(self, b: u8) -> Result<Move, Fault>
        ensures { result ≡ followed self.inner self.place b }
    {
        match (self.inner, b) {
            (Some(Container::List), b',') => Ok(Move::to(Mode::Want, Act::Stay)),
            (Some(Container::Object), b',') => Ok(Move::to(Mode::NextKey, Act::Stay)),
            (Some(Container::List), b']') | (Some(Container::Object), b'}') => Ok(Move::to(
                Mode::After,
                Act::Close,
            )),
            _ => Err(Fault::Malformed(self.place)),
        }
    }

    // A number that began at `from` breaks off: that it is one value too many comes first.
    pub(crate) fn broken_number(self, from: usize) -> Fault
        ensures { result ≡ broken_off self.values from self.place }
    {
        if self.values >= VALUES {
            Fault::Crowded(from)
        } else {
            Fault::Malformed(self.place)
        }
    }

    // Why a number that began at `from` is refused.
    fn number_fault(self, error: NumberError, from: usize) -> Fault
        ensures { result ≡ number_fault error self.values from self.place }
    {
        match error {
            NumberError::Unfit => Fault::Number(from),
            NumberError::Broken => self.broken_number(from),
        }
    }

    // A byte of a number that began at `from`.
    fn judge(self, figures: Result<Figures, NumberError>, from: usize) -> Result<Move, Fault>
        ensures { result ≡ judged figures self.values from self.place }
    {
        let figures = figures.map_err(|error| self.number_fault(error, from))?;
        Ok(Move::to(Mode::Number(figures, from), Act::Stay))
    }

    // A byte of a string, where `spelled` says what it does.
    fn note(self, role: Role, spelled: Option<Spelled>) -> Result<Move, Fault>
        ensures { result ≡ noted role spelled self.place }
    {
        let spelled = spelled.ok_or(Fault::Malformed(self.place))?;
        let act = spelled.piece.map_or(Act::Stay, Act::Add);
        Ok(Move::to(Mode::Text(role, spelled.at), act))
    }

    // What the byte b does.
    pub(crate) fn one_move(self, mode: Mode, b: u8) -> Result<Move, Fault>
        ensures { result ≡ moved mode self b }
    {
        match mode {
            Mode::Want => self.begin(Mode::Want, b),
            Mode::First if b == b']' => Ok(Move::to(Mode::After, Act::Close)),
            Mode::First => self.begin(Mode::First, b),
            Mode::FirstKey if b == b'}' => Ok(Move::to(Mode::After, Act::Close)),
            Mode::FirstKey => self.begin_key(Mode::FirstKey, b),
            Mode::NextKey => self.begin_key(Mode::NextKey, b),
            Mode::Colon if is_white(b) => Ok(Move::to(Mode::Colon, Act::Stay)),
            Mode::Colon if b == b':' => Ok(Move::to(Mode::Want, Act::Stay)),
            Mode::After if is_white(b) => Ok(Move::to(Mode::After, Act::Stay)),
            Mode::After => self.follow_value(b),
            Mode::Word(word) if b == next_letter(word) => Ok(spell_word(word)),
            Mode::Colon | Mode::Word(_) => Err(Fault::Malformed(self.place)),
            Mode::Number(figures, from) => self.judge(figure_move(figures, b), from),
            Mode::Text(role, at) if is_closing(at, b) => Ok(close_quote(role)),
            Mode::Text(role, at) => self.note(role, spell(at, b)),
        }
    }
}
