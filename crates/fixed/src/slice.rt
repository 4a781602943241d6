// Where a run of bytes lies in memory that is kept elsewhere.
ghost use Rattle.std.specs.Prelude.{◌≡◌, drop, take};

// `len` bytes from `start` on. What lies past the end of the memory is not there.
#[derive(Clone, Copy, PartialEq, Eq, Debug)]
pub struct Slice {
    pub start: usize,
    pub len: usize,
}

impl Slice {
    pub fn of(self, bytes: &[u8]) -> &[u8]
        ensures { result.now ≡ take self.len (drop self.start bytes.now) }
    {
        let rest = &bytes[self.start.min(bytes.len())..];
        &rest[..self.len.min(rest.len())]
    }
}
