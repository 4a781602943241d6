// Checks that bytes are a scope, and says where its parts stand.
ghost use Rattle.std.specs.Prelude.{◌≡◌, ℕ, List, drop, is_some};
ghost use Rattle.image.specs.Decode.{decoded_old, decoded_optional, decoded_scope, then};
ghost use Rattle.image.specs.Laws.{DecodesScopes};
ghost use Rattle.image_cursor.specs.Scopes.{old_at, scope_at};

use crate::tail::Tail;
use image::command::Command;

// What oldSelf is: a value's image begins at the position, or at `Present` that of an optional. One enum for the
// four, since an `Option` for each of them would have its reader answer an option of an option of an option.
#[derive(Clone, Copy, PartialEq, Eq, Debug)]
pub enum OldPlace {
    Absent,
    Plain(usize),
    Empty,
    Present(usize),
}

// Where the image of self begins, and what oldSelf is.
#[derive(Clone, Copy, PartialEq, Eq, Debug)]
pub struct ScopeParts {
    pub own: usize,
    pub old: OldPlace,
}

impl Tail<'_> {
    // What stands behind the command of oldSelf.
    #[tactic(auto, using(crate::proofs::Scoping::optional_none, crate::proofs::Scoping::present_at, crate::proofs::Scoping::present_ok))]
    fn optional(self) -> Option<OldPlace>
        ensures old { (bytes : List ℕ) → self.entry.rest.now ≡ drop self.entry.place bytes → decoded_optional self.entry.rest.now ≡ then result (old_at bytes) }
        ensures ok { is_some result ≡ is_some (decoded_optional self.entry.rest.now) }
    {
        let (command, behind) = self.command()?;
        match command {
            Command::Empty => behind.rest.is_empty().then_some(OldPlace::Empty),
            Command::Present => behind.is_whole().then_some(OldPlace::Present(behind.place)),
            _ => self.is_whole().then_some(OldPlace::Plain(self.place)),
        }
    }

    // What stands behind the image of self.
    fn old(self) -> Option<OldPlace>
        ensures old { (bytes : List ℕ) → self.entry.rest.now ≡ drop self.entry.place bytes → decoded_old self.entry.rest.now ≡ then result (old_at bytes) }
        ensures ok { is_some result ≡ is_some (decoded_old self.entry.rest.now) }
    {
        if self.rest.is_empty() {
            return Some(OldPlace::Absent);
        }
        match self.command()? {
            (Command::Old, behind) => behind.optional(),
            _ => None,
        }
    }
}

// The parts of the scope that the bytes are; none exactly where they are no scope.
pub fn read_scope(bytes: &[u8]) -> Option<ScopeParts>
    ensures scope { decoded_scope bytes.now ≡ then result (scope_at bytes.now) }
    ensures ok { is_some result ≡ is_some (decoded_scope bytes.now) }
    ensures lawful { DecodesScopes }
{
    let (command, own) = Tail::of(bytes, 0).command()?;
    if command != Command::Own {
        return None;
    }
    let old = own.checked()?.old()?;
    Some(ScopeParts {
        own: own.place,
        old,
    })
}
