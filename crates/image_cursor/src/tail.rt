// The bytes of an image from a position on.
ghost use Rattle.std.specs.Prelude.{◌≡◌, ◌+◌, ◌^◌, ◌<◌, ◌≤◌, length, drop, All};

// What is left of an image, and the position at which it begins.
#[derive(Clone, Copy)]
pub(crate) struct Tail<'a> {
    pub rest: &'a [u8],
    pub place: usize,
    ghost octets: { All (λ b. b < 256) rest.now },
    ghost counted: { (place + length rest.now < 2 ^ 64) × (length rest.now < 2 ^ 63) },
}

impl<'a> Tail<'a> {
    // What is left from `at` on: nothing where that is past the end.
    pub fn of(bytes: &'a [u8], at: usize) -> Tail<'a>
        ensures rest { result.rest.now ≡ drop at bytes.now }
        ensures place { result.place ≡ at }
    {
        let rest = bytes.get(at..).unwrap_or(&[]);
        Tail { rest, place: at }
    }

    // What stands behind the first `width` bytes.
    pub fn behind(self, width: usize) -> Tail<'a>
        requires { width ≤ length self.rest.now }
        ensures rest { result.rest.now ≡ drop width self.entry.rest.now }
        ensures place { result.place ≡ self.entry.place + width }
    {
        let rest = &self.rest[width..];
        let place = self.place + width;
        Tail { rest, place }
    }
}
