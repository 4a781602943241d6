// What a writer writes. Each function writes its bytes whole, or says that they have no room and writes nothing.
ghost use Rattle.std.specs.Prelude.{◌≡◌, ◌≤◌, [], ◌∷◌, drop, decimal};
ghost use Rattle.writer.specs.Writes.{Writes};
ghost use Rattle.writer.specs.Written.{be4, be8};

use crate::{BufferShort, ByteWriter};

// The most digits that a 64-bit number has.
const DIGITS: usize = 20;

impl<'a> ByteWriter<'a> {
    #[tactic(auto, using(crate::proofs::Puts::put_mid_lem))]
    pub fn put(&mut self, bytes: &[u8]) -> Result<(), BufferShort>
        ensures { Writes self.old self.new bytes.now result }
    {
        let at = self.at;
        if self.out.len() - at < bytes.len() {
            return Err(BufferShort);
        }
        let end = at + bytes.len();
        self.out[at..end].copy_from_slice(bytes);
        self.at = end;
        Ok(())
    }

    pub fn put_byte(&mut self, b: u8) -> Result<(), BufferShort>
        ensures { Writes self.old self.new (b ∷ []) result }
    {
        self.put(&[b])
    }

    // The number in four bytes, the highest first.
    pub fn put_be_u32(&mut self, n: u32) -> Result<(), BufferShort>
        ensures { Writes self.old self.new (be4 n) result }
    {
        let four = n.to_be_bytes();
        self.put(&four)
    }

    // The number in eight bytes, the highest first.
    pub fn put_be_u64(&mut self, n: u64) -> Result<(), BufferShort>
        ensures { Writes self.old self.new (be8 n) result }
    {
        let eight = n.to_be_bytes();
        self.put(&eight)
    }

    // The number in decimal digits, with no leading zero.
    pub fn put_decimal(&mut self, n: u64) -> Result<(), BufferShort>
        ensures { Writes self.old self.new (decimal n) result }
    {
        let mut digits = [0u8; DIGITS];
        let from = spell(n, &mut digits);
        self.put(&digits[from..])
    }
}

// Writes the digits of `n` at the end of `digits`, and says where they begin.
#[tactic(auto, using(crate::proofs::Digits::begun, crate::proofs::Digits::room_some, crate::proofs::Digits::digit_more, crate::proofs::Digits::digit_first))]
fn spell(n: u64, digits: &mut [u8; DIGITS]) -> usize
    ensures low { result ≤ 20 }
    ensures value { drop result digits.new ≡ decimal n }
{
    let mut from = DIGITS;
    let mut left = n;
    // Counted by hand: a `for` over the places would need an answer for their end, which no number reaches.
    loop {
        from -= 1;
        digits[from] = b'0' + (left % 10) as u8;
        left /= 10;
        if left == 0 {
            return from;
        }
    }
}
