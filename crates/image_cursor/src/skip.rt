// Goes over whole values with a count of those to come: no stack, whatever the bytes.
ghost use Rattle.std.specs.Prelude.{◌≡◌, ℕ, Bool, List, IfSome};
ghost use Rattle.image.specs.Decode.{Head as SeenHead};
ghost use Rattle.image_cursor.specs.Heads.{meaning};
ghost use Rattle.image_cursor.specs.Tails.{SameEnd, bytes_left};
ghost use Rattle.image_cursor.specs.Walking.{any, past, skipped};

use crate::head::Head;
use crate::tail::Tail;

// What is asked of each command on the way over a value.
pub(crate) trait Ask {
    ghost asked: { SeenHead → List ℕ → Bool };

    fn passes(head: Head<'_>, behind: Tail<'_>) -> bool
        ensures { result ≡ asked (meaning head.entry) behind.entry.rest.now };
}

// Of any command nothing is asked.
pub struct Nothing;

impl Ask for Nothing {
    ghost asked = { any };

    fn passes(_head: Head<'_>, _behind: Tail<'_>) -> bool {
        true
    }
}

impl<'a> Tail<'a> {
    // What stands behind the value at the front, if all its commands pass. A key counts as a value, so that a
    // map's members are twice its count; each value takes a byte, so that a count beyond the bytes left means
    // that there is none.
    pub(crate) fn behind_value<A: Ask>(self) -> Option<Tail<'a>>
        ensures value { bytes_left result ≡ past A.asked 1 self.entry.rest.now }
        ensures end { IfSome result (λ t. SameEnd self.entry t) }
    {
        let mut tail = self;
        let mut left: usize = 1;
        while left > 0 {
            let (head, behind) = tail.head()?;
            left = left - 1 + head.parts();
            if behind.rest.len() < left || !A::passes(head, behind) {
                return None;
            }
            tail = behind;
        }
        Some(tail)
    }

    // What stands behind the value at the front.
    pub(crate) fn skipped(self) -> Option<Tail<'a>>
        ensures value { bytes_left result ≡ skipped self.entry.rest.now }
        ensures end { IfSome result (λ t. SameEnd self.entry t) }
    {
        self.behind_value::<Nothing>()
    }
}
