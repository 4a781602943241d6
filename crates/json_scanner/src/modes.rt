// What a scanner knows between two bytes, and what a byte does.

// At most so many lists and objects are open.
pub const DEPTH: usize = 200;

// At most so many values begin.
pub const VALUES: usize = 4096;

// Why a text is refused, and where: the number of bytes before the fault.
#[derive(Clone, Copy, PartialEq, Eq, Debug)]
pub enum Fault {
    Malformed(usize),
    Nested(usize),
    Number(usize),
    Crowded(usize),
}

// The default fills the room that none has taken yet.
#[derive(Clone, Copy, PartialEq, Eq, Default, Debug)]
pub enum Container {
    #[default]
    List,
    Object,
}

// What a string is for.
#[derive(Clone, Copy, PartialEq, Eq, Debug)]
pub enum Role {
    Key,
    Value,
}

// What is to come of a UTF-8 sequence; its second byte depends on the first.
#[derive(Clone, Copy, PartialEq, Eq, Debug)]
pub enum Tail {
    One,
    Two,
    SecondOfThree(u8),
    SecondOfFour(u8),
}

// The values of the hexadecimal digits so far: by variants, there is no fifth, as beside a count there might be.
#[derive(Clone, Copy, PartialEq, Eq, Debug)]
pub enum Hex {
    Zero,
    One(u8),
    Two(u8, u8),
    Three(u8, u8, u8),
}

// Where in a string: between characters, or inside one.
#[derive(Clone, Copy, PartialEq, Eq, Debug)]
pub enum Inside {
    Plain,
    Raw(Tail),
    Escape,
    Unit(Hex),
    High(u32),
    HighEscape(u32),
    Low(u32, Hex),
}

// What is added to a string's text.
#[derive(Clone, Copy, PartialEq, Eq, Debug)]
pub enum Piece {
    Byte(u8),
    Char(char),
}

// What a byte of a string does: where it leads, and what it adds to the text.
#[derive(Clone, Copy, PartialEq, Eq, Debug)]
pub struct Spelled {
    pub at: Inside,
    pub piece: Option<Piece>,
}

// The letters of a literal so far: by variants, none runs past its word, as a count of letters might.
#[derive(Clone, Copy, PartialEq, Eq, Debug)]
pub enum Word {
    N,
    Nu,
    Nul,
    T,
    Tr,
    Tru,
    F,
    Fa,
    Fal,
    Fals,
}

// The parts of a number so far: its sign and digits, and what follows a point or an exponent's letter.
// `minus` is whether a minus stands there, which is all that the grammar knows of a sign.
#[derive(Clone, Copy, PartialEq, Eq, Debug)]
pub enum Figures {
    Minus,
    Whole { minus: bool, size: u64 },
    Point,
    Power,
    Sign,
}

// Why a byte does not go on with a number: it is then known not to fit, or the byte is none of a number.
#[derive(Clone, Copy, PartialEq, Eq, Debug)]
pub enum NumberError {
    Unfit,
    Broken,
}

// What may come next; a number has the place of its first byte.
#[derive(Clone, Copy, PartialEq, Eq, Debug)]
pub enum Mode {
    Want,
    First,
    FirstKey,
    NextKey,
    Colon,
    After,
    Word(Word),
    Number(Figures, usize),
    Text(Role, Inside),
}

// What a byte does to what is built. A literal or a text begins at `Begin`, a list or an object at its bracket.
#[derive(Clone, Copy, PartialEq, Eq, Debug)]
pub enum Act {
    Stay,
    Begin,
    Open(Container),
    Close,
    Add(Piece),
    Key,
    Text,
    Null,
    Bool(bool),
}

// What may come behind a byte, and what the byte does.
#[derive(Clone, Copy, PartialEq, Eq, Debug)]
pub struct Move {
    pub mode: Mode,
    pub act: Act,
}

// An integer by its sign and size, and the place of its first byte.
#[derive(Clone, Copy, PartialEq, Eq, Debug)]
pub struct Numeral {
    pub minus: bool,
    pub size: u64,
    pub place: usize,
}

// What an integer is: an int where it fits, else a uint.
#[derive(Clone, Copy, PartialEq, Eq, Debug)]
pub enum Number {
    Int(i64),
    Uint(u64),
}

// What stands around a byte: the bytes before it, the containers that are open, and the values that have begun
// (a number counts when it ends).
#[derive(Clone, Copy, PartialEq, Eq, Debug)]
pub struct Around {
    pub place: usize,
    pub inner: Option<Container>,
    pub depth: usize,
    pub values: usize,
}

// What stands once a number that ends has been taken.
#[derive(Clone, Copy, PartialEq, Eq, Debug)]
pub struct Ready {
    pub mode: Mode,
    pub values: usize,
    pub number: Option<Numeral>,
}

// The number that ended before a byte, if one did, and what the byte does.
#[derive(Clone, Copy, PartialEq, Eq, Debug)]
pub struct Step {
    pub number: Option<Numeral>,
    pub act: Act,
}
