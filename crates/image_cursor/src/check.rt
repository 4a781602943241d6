// Checks that bytes are values whose maps have their keys in order, with no stack, whatever the bytes.
ghost use Rattle.std.specs.Prelude.{◌≡◌, is_some, IfSome};
ghost use Rattle.image.specs.Decode.{decoded, whole};
ghost use Rattle.image_cursor.specs.Checking.{keyed};
ghost use Rattle.image_cursor.specs.Tails.{SameEnd, bytes_left};
ghost use Rattle.std.specs.Option.{option_map};

use crate::head::Head;
use crate::skip::Ask;
use crate::tail::Tail;

// Of a map's command it is asked that the members behind it are in order.
pub struct KeysAscend;

impl Ask for KeysAscend {
    ghost asked = { keyed };

    fn passes(head: Head<'_>, behind: Tail<'_>) -> bool {
        match head {
            Head::Map(count) => behind.ascends(count),
            _ => true,
        }
    }
}

impl<'a> Tail<'a> {
    // What stands behind the value at the front, if it is one. All commands are read in one pass by a count of
    // the values to come, and at each map its members are gone through once more.
    pub(crate) fn checked(self) -> Option<Tail<'a>>
        ensures value { bytes_left result ≡ option_map (λ d. d.rest) (decoded self.entry.rest.now) }
        ensures end { IfSome result (λ t. SameEnd self.entry t) }
    {
        self.behind_value::<KeysAscend>()
    }

    // Whether one value's image is all that is left.
    pub(crate) fn is_whole(self) -> bool
        ensures { result ≡ is_some (whole self.entry.rest.now) }
    {
        self.checked().is_some_and(|behind| behind.rest.is_empty())
    }
}
