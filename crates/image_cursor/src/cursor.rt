// A cursor over lent bytes that hold an image; it copies nothing.
ghost use Rattle.std.specs.Prelude.{◌≡◌, ◌+◌, drop, is_some, IfSome};
ghost use Rattle.image.specs.Decode.{seen};
ghost use Rattle.image_cursor.specs.Heads.{Placed, meaning};
ghost use Rattle.image_cursor.specs.Laws.{FindsMembers, ReadsImages, SkipsImages};
ghost use Rattle.image_cursor.specs.Walking.{left_off, skipped, sought};
ghost use Rattle.std.specs.Option.{option_map, option_map_or};

use crate::head::Head;
use crate::tail::Tail;

#[derive(Clone, Copy)]
pub struct Cursor<'a> {
    bytes: &'a [u8],
    at: usize,
}

impl<'a> Cursor<'a> {
    // A cursor that stands at `at`. From an image it reads the value that it was made of.
    pub fn new(bytes: &'a [u8], at: usize) -> Cursor<'a>
        ensures bytes { result.bytes.now ≡ bytes.now }
        ensures at { result.at ≡ at }
        ensures reads { ReadsImages }
        ensures skips { SkipsImages }
        ensures finds { FindsMembers }
    {
        Cursor { bytes, at }
    }

    pub fn position(&self) -> usize
        ensures { result ≡ self.now.at }
    {
        self.at
    }

    // The command with its operand that stands at the cursor, which goes behind it. Where there is none of
    // a value, or its operand passes the end, the cursor stays.
    pub fn read(&mut self) -> Option<Head<'a>>
        ensures head { option_map meaning result ≡ option_map (λ c. c.head) (seen (drop self.old.at self.old.bytes.now)) }
        ensures place { IfSome result (Placed (self.old.at + 5)) }
        ensures at { self.new.at ≡ left_off self.old.bytes.now self.old.at (option_map (λ c. c.rest) (seen (drop self.old.at self.old.bytes.now))) }
        ensures bytes { self.new.bytes.now ≡ self.old.bytes.now }
    {
        let (head, behind) = self.tail().head()?;
        self.at = behind.place;
        Some(head)
    }

    // Goes behind the value that stands at the cursor, or stays where there is no whole one. The answer is whether
    // it went, and no position, since the cursor has that.
    pub fn skip(&mut self) -> bool
        ensures ok { result ≡ is_some (skipped (drop self.old.at self.old.bytes.now)) }
        ensures at { self.new.at ≡ left_off self.old.bytes.now self.old.at (skipped (drop self.old.at self.old.bytes.now)) }
        ensures bytes { self.new.bytes.now ≡ self.old.bytes.now }
    {
        self.go(self.tail().skipped())
    }

    // Goes from a map's command to the value whose key is `key`, or stays where there is none.
    pub fn find(&mut self, key: &[u8]) -> bool
        ensures ok { result ≡ is_some (sought key.now (drop self.old.at self.old.bytes.now)) }
        ensures at { self.new.at ≡ left_off self.old.bytes.now self.old.at (sought key.now (drop self.old.at self.old.bytes.now)) }
        ensures bytes { self.new.bytes.now ≡ self.old.bytes.now }
    {
        self.go(self.tail().sought(key))
    }

    fn tail(&self) -> Tail<'a>
        ensures rest { result.rest.now ≡ drop self.now.at self.now.bytes.now }
        ensures place { result.place ≡ self.now.at }
    {
        Tail::of(self.bytes, self.at)
    }

    // Goes where `to` begins, or stays where there is none.
    fn go(&mut self, to: Option<Tail<'_>>) -> bool
        ensures ok { result ≡ is_some to.entry }
        ensures at { self.new.at ≡ option_map_or (λ t. t.place) to.entry self.old.at }
        ensures bytes { self.new.bytes.now ≡ self.old.bytes.now }
    {
        let Some(tail) = to else {
            return false;
        };
        self.at = tail.place;
        true
    }
}
