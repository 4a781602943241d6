// Where a text is held.
ghost use Rattle.std.specs.Prelude.{◌≡◌, take, drop};

use fixed::slice::Slice;

// Which text something was read from: each has a store of its own.
#[derive(Clone, Copy, PartialEq, Eq, Debug, Default)]
pub enum Source {
    #[default]
    Schema,
    Record,
    Older,
}

// A text as a part of the store that holds it.
#[derive(Clone, Copy, PartialEq, Eq, Debug, Default)]
pub struct Part {
    pub source: Source,
    pub start: usize,
    pub len: usize,
}

impl Part {
    // This part of one text. What passes the end of the text is left out.
    pub fn of(self, text: &[u8]) -> &[u8]
        ensures { result.now ≡ take self.len (drop self.start text.now) }
    {
        let slice = Slice {
            start: self.start,
            len: self.len,
        };
        slice.of(text)
    }
}
