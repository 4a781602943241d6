// A byte writer over a lent buffer: it writes a thing whole or not at all, says how far it came, and leaves what lies beyond untouched.
#![tactic(auto)]

ghost use Rattle.std.specs.Prelude.{◌≡◌, ◌≤◌, length};

mod put;

// The buffer has no room for what was to be written.
#[derive(Clone, Copy, PartialEq, Eq, Debug)]
pub struct BufferShort;

#[derive(Drop)]
pub struct ByteWriter<'a> {
    out: &'a mut [u8],
    at: usize,
    ghost within: { at ≤ length out.now },
}

impl<'a> ByteWriter<'a> {
    pub fn new(out: &'a mut [u8]) -> ByteWriter<'a>
        ensures at { result.at ≡ 0 }
        ensures out { result.out.now ≡ out.old }
        ensures name { result.out.ghost_name ≡ out.entry.ghost_name }
    {
        ByteWriter { out, at: 0 }
    }

    // How many bytes were written.
    pub fn position(&self) -> usize
        ensures at { result ≡ self.now.at }
        ensures within { result ≤ length self.now.out.now }
    {
        self.at
    }
}

#[cfg(test)]
mod tests;
