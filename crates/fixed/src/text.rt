// A short text by value.
ghost use Rattle.std.specs.Prelude.{◌≡◌, ◌≤◌, [], length, if◌then◌else◌, Some, None, Decides, ◌==◌, nat_le, bytes_eq};
ghost use Rattle.std.specs.Cmp.{partial_equiv_from_equiv};
ghost use Rattle.std.specs.Cmp.Lexicographic.{nat_list_eq_equiv};
ghost use Rattle.fixed.specs.Room.{fits, extended, granted, Extends};

use crate::refusal::Full;
use std::marker::Model;

// The most bytes that a text may have.
pub const MOST: usize = 1024;

// A text of at most MOST bytes: the first `len` of the array, and zeros behind them.
#[derive(Clone, Copy, Debug)]
pub struct BoundedText {
    bytes: [u8; MOST],
    len: usize,
}

impl Model for BoundedText {
    ghost use Rattle.std.specs.Prelude.{ℕ, List, take};

    ghost Value = { List ℕ };

    ghost use Rattle.fixed.specs.Texts.{Kept, keep, kept_again};

    ghost view = { λ t. take t.len t.bytes };

    ghost invariant = { Kept };

    ghost inverse = { keep };

    ghost inverse_ok = { kept_again };
}

impl BoundedText {
    // The empty text.
    pub fn new() -> Self
        ensures { result ≡ [] }
    {
        BoundedText {
            bytes: [0; MOST],
            len: 0,
        }
    }

    // A text of these bytes, unless they are too many.
    pub fn from_bytes(bytes: &[u8]) -> Option<Self>
        ensures { result ≡ (if nat_le (length bytes.now) 1024 then Some bytes.now else None) }
    {
        let mut text = BoundedText::new();
        text.append(bytes).ok()?;
        Some(text)
    }

    pub fn len(&self) -> usize
        ensures value { result ≡ length self.now }
        ensures few { result ≤ 1024 }
    {
        self.len
    }

    pub fn is_empty(&self) -> bool
        ensures { result ≡ (length self.now == 0) }
    {
        self.len == 0
    }

    pub fn as_bytes(&self) -> &[u8]
        ensures value { result.now ≡ self.now }
        ensures few { length result.now ≤ 1024 }
    {
        let len = self.len;
        &self.bytes[0..len]
    }

    // Adds all of these bytes at the end, or none.
    pub fn append(&mut self, bytes: &[u8]) -> Result<(), Full>
        ensures answer { result ≡ granted (fits 1024 self.old bytes.now) }
        ensures text { self.new ≡ extended 1024 self.old bytes.now }
        ensures cases { Extends 1024 self.old bytes.now result self.new }
    {
        let from = self.len;
        if bytes.len() > MOST - from {
            return Err(Full);
        }
        let to = from + bytes.len();
        self.bytes[from..to].copy_from_slice(bytes);
        self.len = to;
        Ok(())
    }
}

// By hand, since a derived equality is said of the whole array and reads all of it: the bytes of the texts decide.
impl PartialEq for BoundedText {
    ghost eq = { bytes_eq };

    ghost laws = { partial_equiv_from_equiv nat_list_eq_equiv };

    fn eq(&self, other: &BoundedText) -> bool
        ensures value { result ≡ bytes_eq self.now other.now }
        ensures equals { Decides result (self.now ≡ other.now) }
    {
        self.as_bytes() == other.as_bytes()
    }
}

impl Eq for BoundedText {
    ghost laws = { nat_list_eq_equiv };
}
