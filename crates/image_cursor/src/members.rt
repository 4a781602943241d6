// The members of a map: by turns a key and a value.
ghost use Rattle.std.specs.Prelude.{◌≡◌, IfSome, None};
ghost use Rattle.image.specs.Decode.{above};
ghost use Rattle.image_cursor.specs.Checking.{ordered};
ghost use Rattle.image_cursor.specs.Members.{keyed_by, member_above};
ghost use Rattle.image_cursor.specs.Tails.{SameEnd, bytes_left};
ghost use Rattle.image_cursor.specs.Walking.{key_seen, looked_up, sought};
ghost use Rattle.std.specs.Option.{option_map};

use crate::head::Head;
use crate::tail::Tail;
use order::compare_bytes;

impl<'a> Tail<'a> {
    // A member's key, and its value with what stands behind it.
    fn key(self) -> Option<(&'a [u8], Tail<'a>)>
        ensures value { option_map keyed_by result ≡ key_seen self.entry.rest.now }
        ensures end { IfSome result (λ r. SameEnd self.entry r.1) }
    {
        match self.head()? {
            (Head::Text(part), value) => Some((part.text, value)),
            _ => None,
        }
    }

    // The value whose key is `key`, among `count` members.
    #[tactic(auto, using(crate::proofs::Keys::look_none))]
    fn look_up(self, count: u32, key: &[u8]) -> Option<Tail<'a>>
        ensures value { bytes_left result ≡ looked_up count key.now self.entry.rest.now }
        ensures end { IfSome result (λ t. SameEnd self.entry t) }
    {
        let mut members = self;
        for _ in 0..count {
            let (found, value) = members.key()?;
            if found == key {
                return Some(value);
            }
            members = value.skipped()?;
        }
        None
    }

    // The same in the map at the front.
    pub(crate) fn sought(self, key: &[u8]) -> Option<Tail<'a>>
        ensures value { bytes_left result ≡ sought key.now self.entry.rest.now }
        ensures end { IfSome result (λ t. SameEnd self.entry t) }
    {
        match self.head()? {
            (Head::Map(count), members) => members.look_up(count, key),
            _ => None,
        }
    }

    // A whole member whose key is above `before`: the key, and what stands behind the value.
    fn member_above(self, before: Option<&[u8]>) -> Option<(&'a [u8], Tail<'a>)>
        ensures { option_map keyed_by result ≡ member_above (option_map (λ x. x.now) before.entry) self.entry.rest.now }
    {
        let (key, value) = self.key()?;
        if !is_above(before, key) {
            return None;
        }
        Some((key, value.skipped()?))
    }

    // Whether `count` members stand at the front, each key a text above the one before it.
    #[tactic(auto, using(crate::proofs::Keys::order_none))]
    pub(crate) fn ascends(self, count: u32) -> bool
        ensures { result ≡ ordered count None self.entry.rest.now }
    {
        let mut members = self;
        let mut before: Option<&[u8]> = None;
        for _ in 0..count {
            let Some((key, behind)) = members.member_above(before) else {
                return false;
            };
            before = Some(key);
            members = behind;
        }
        true
    }
}

// Whether a key is above the one before it, if there is one.
fn is_above(before: Option<&[u8]>, key: &[u8]) -> bool
    ensures { result ≡ above (option_map (λ x. x.now) before.entry) key.now }
{
    before.is_none_or(|other| compare_bytes(other, key).is_lt())
}
