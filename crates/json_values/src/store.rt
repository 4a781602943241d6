// The bytes of the texts that were read, in memory that is taken once.
ghost use Rattle.std.specs.Prelude.{◌≡◌, ◌≤◌, [], ◌∷◌, length, take, IfOk};
ghost use Rattle.fixed.specs.Room.{Extends, extended, fits, granted};
ghost use Rattle.json_values.specs.Zeros.{filled};

use fixed::refusal::Full;
use std::alloc::{AllocError, Global};
use std::marker::Model;

// The bytes of a store.
pub const ROOM: usize = 65_535;

// Texts joined at the front, and zeros behind them. The length stands beside the bytes since all 65,535 are handed out.
#[derive(Drop)]
pub struct Store {
    bytes: Vec<u8>,
    len: usize,
}

impl Model for Store {
    ghost use Rattle.std.specs.Prelude.{List, ℕ, take};

    ghost Value = { List ℕ };

    ghost use Rattle.json_values.specs.Stored.{Kept};

    ghost view = { λ s. take s.len s.bytes.items };

    ghost invariant = { Kept };
}

impl Store {
    // An empty store, whose room is taken here.
    pub fn new(heap: Global) -> Result<Store, AllocError>
        ensures { IfOk result (λ s. s ≡ []) }
    {
        let bytes = vec![in heap; 0; ROOM]?;
        Ok(Store { bytes, len: 0 })
    }

    // How many bytes of text it holds.
    pub fn len(&self) -> usize
        ensures value { result ≡ length self.now }
        ensures few { result ≤ 65535 }
    {
        self.len
    }

    // All its bytes: the texts, and the zeros behind them.
    pub fn bytes(&self) -> &[u8]
        ensures value { result.now ≡ filled self.now }
        ensures long { length result.now ≡ 65535 }
    {
        &self.bytes
    }

    // The texts alone.
    pub fn text(&self) -> &[u8]
        ensures value { result.now ≡ self.now }
        ensures few { length result.now ≤ 65535 }
    {
        &self.bytes[..self.len]
    }

    // Adds a byte behind the texts.
    pub fn push(&mut self, b: u8) -> Result<(), Full>
        ensures answer { result ≡ granted (fits 65535 self.old (b ∷ [])) }
        ensures text { self.new ≡ extended 65535 self.old (b ∷ []) }
        ensures cases { Extends 65535 self.old (b ∷ []) result self.new }
    {
        if self.len >= ROOM {
            return Err(Full);
        }
        self.bytes[self.len] = b;
        self.len += 1;
        Ok(())
    }

    // Adds all of `more` behind the texts, or nothing.
    pub fn append(&mut self, more: &[u8]) -> Result<(), Full>
        ensures answer { result ≡ granted (fits 65535 self.old more.now) }
        ensures text { self.new ≡ extended 65535 self.old more.now }
        ensures cases { Extends 65535 self.old more.now result self.new }
    {
        if more.len() > ROOM - self.len {
            return Err(Full);
        }
        let end = self.len + more.len();
        self.bytes[self.len..end].copy_from_slice(more);
        self.len = end;
        Ok(())
    }

    // Keeps the first n bytes of the texts; what goes becomes zeros.
    pub fn truncate(&mut self, n: usize)
        ensures { self.new ≡ take n self.old }
    {
        if n < self.len {
            self.bytes[n..self.len].fill(0);
            self.len = n;
        }
    }

    pub fn clear(&mut self)
        ensures { self.new ≡ [] }
    {
        self.truncate(0);
    }
}
