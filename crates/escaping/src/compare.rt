// The order of two escaped names, found without writing either.
ghost use Rattle.std.specs.Prelude.{◌≡◌, ◌≤◌, length, drop};
ghost use Rattle.std.specs.Iterator.{YieldsFirst, item_count};
ghost use Rattle.std.specs.List.{concat};
ghost use Rattle.std.specs.declared.cmp.Ordering.TheVariants.{Equal};
ghost use Rattle.escaping.specs.Escape.{escape, replaced};
ghost use Rattle.escaping.specs.Left.{bytes_left, pieces_left};
ghost use Rattle.order.specs.Bytes.{compare_bytes};

use super::piece::Pieces;
use super::words::is_reserved;
use std::cmp::Ordering;

// The bytes of an escape that are yet to come: what is left of the piece in hand, and the pieces behind it.
#[derive(Drop)]
pub struct Escaped<'a> {
    piece: &'a [u8],
    pieces: Pieces<'a>,
}

impl<'a> Escaped<'a> {
    fn of(pieces: Pieces<'a>) -> Escaped<'a>
        ensures { bytes_left result ≡ concat (pieces_left pieces.entry) }
    {
        Escaped { piece: b"", pieces }
    }
}

impl Iterator for Escaped<'_> {
    type Item = u8;

    ghost next_gives = { YieldsFirst bytes_left };

    ghost remaining = { item_count bytes_left };

    fn next(&mut self) -> Option<u8> {
        loop {
            if let [first, rest @ ..] = self.piece {
                self.piece = rest;
                return Some(*first);
            }
            self.piece = self.pieces.next()?;
        }
    }
}

fn compare_pieces(ours: Pieces<'_>, theirs: Pieces<'_>) -> Ordering
    ensures { result ≡ compare_bytes (concat (pieces_left ours.entry)) (concat (pieces_left theirs.entry)) }
{
    Escaped::of(ours).cmp(Escaped::of(theirs))
}

// How many bytes are alike at the front of both names, up to where a sign ends: one underscore alone may be half of one.
fn shared_len(a: &[u8], b: &[u8]) -> usize
    ensures first { result ≤ length a.now }
    ensures second { result ≤ length b.now }
    ensures order { compare_bytes (replaced (drop result a.now)) (replaced (drop result b.now)) ≡ compare_bytes (replaced a.now) (replaced b.now) }
{
    let mut shared = 0;
    for (i, sign) in a.iter().enumerate() {
        if b.get(i) != Some(sign) {
            break;
        }
        if *sign != b'_' || shared < i {
            shared = i + 1;
        }
    }
    shared
}

// Compares the escapes from where the names begin to differ.
#[tactic(auto, using(crate::proofs::Shared::words_answer, crate::proofs::Shared::names_answer))]
fn compare_unshared(a: &[u8], b: &[u8]) -> Ordering
    ensures { result ≡ compare_bytes (escape a.now) (escape b.now) }
{
    match (is_reserved(a), is_reserved(b)) {
        (false, false) => {
            let shared = shared_len(a, b);
            compare_pieces(
                Pieces::new(false, &a[shared..]),
                Pieces::new(false, &b[shared..]),
            )
        }
        // A wrapped word begins with underscores that are not in its name, so what the names share says nothing.
        (a_wrapped, b_wrapped) => {
            compare_pieces(Pieces::new(a_wrapped, a), Pieces::new(b_wrapped, b))
        }
    }
}

// How the escapes of two names compare as byte strings; they are equal only if the names are.
#[tactic(auto, using(crate::proofs::Shared::same_names))]
pub fn compare_escaped(a: &[u8], b: &[u8]) -> Ordering
    ensures answer { result ≡ compare_bytes (escape a.now) (escape b.now) }
    ensures same { result ≡ Equal → a.now ≡ b.now }
{
    compare_unshared(a, b)
}
