// The texts that a name's escape is put together from.
ghost use Rattle.std.specs.Prelude.{◌≡◌, [], ◌∷◌, MatchOption};
ghost use Rattle.std.specs.Iterator.{YieldsFirstRef, item_count};
ghost use Rattle.std.specs.List.{concat};
ghost use Rattle.escaping.specs.Escape.{escape, signs};
ghost use Rattle.escaping.specs.Left.{pieces_left, spelled};

use super::words::is_reserved;
use std::mem;

// What stands on both sides of a reserved word.
const AROUND: &[u8] = b"__";

// The pieces that are yet to come: the signs of a name, or a word as a whole between underscores.
#[derive(Drop)]
pub struct Pieces<'a> {
    opens: bool,
    name: &'a [u8],
    word: Option<&'a [u8]>,
    closes: bool,
}

impl<'a> Pieces<'a> {
    #[inline(always)]
    pub fn of(name: &'a [u8]) -> Pieces<'a>
        ensures { concat (pieces_left result) ≡ escape name.now }
    {
        Pieces::new(is_reserved(name), name)
    }

    // Those of a name, or of the rest of one, that is known to be a reserved word or none.
    #[tactic(auto, using(crate::proofs::Walk::name_joined), unfolding(crate::specs::Escape::signs))]
    #[inline(always)]
    pub fn new(wrapped: bool, name: &'a [u8]) -> Pieces<'a>
        ensures { concat (pieces_left result) ≡ spelled wrapped name.now }
    {
        if wrapped {
            return Pieces {
                opens: true,
                name: b"",
                word: Some(name),
                closes: true,
            };
        }
        Pieces {
            opens: false,
            name,
            word: None,
            closes: false,
        }
    }
}

impl<'a> Iterator for Pieces<'a> {
    type Item = &'a [u8];

    ghost next_gives = { YieldsFirstRef pieces_left };

    ghost remaining = { item_count pieces_left };

    fn next(&mut self) -> Option<&'a [u8]> {
        if mem::take(&mut self.opens) {
            return Some(AROUND);
        }
        if let Some((text, rest)) = first_sign(self.name) {
            self.name = rest;
            return Some(text);
        }
        if let Some(word) = self.word.take() {
            return Some(word);
        }
        mem::take(&mut self.closes).then_some(AROUND)
    }
}

// The text of the first sign of a name, and the signs that follow.
#[tactic(auto, using(crate::proofs::Pieces::pair_first, crate::proofs::Pieces::sign_first, crate::proofs::Pieces::plain_first), unfolding(crate::specs::Escape::signs))]
fn first_sign(name: &[u8]) -> Option<(&[u8], &[u8])>
    ensures { MatchOption result (signs name.now ≡ []) (λ p. signs name.now ≡ p.0.now ∷ signs p.1.now) }
{
    match name {
        [] => None,
        [b'_', b'_', rest @ ..] => Some((b"__underscores__", rest)),
        [b'.', rest @ ..] => Some((b"__dot__", rest)),
        [b'-', rest @ ..] => Some((b"__dash__", rest)),
        [b'/', rest @ ..] => Some((b"__slash__", rest)),
        [_, rest @ ..] => Some((&name[..1], rest)),
    }
}
