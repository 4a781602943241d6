// The rows of an answer book.
ghost use Rattle.std.specs.Prelude.{◌≡◌, ◌-◌, ◌^◌, min};
ghost use Rattle.rule_host.specs.Rows.{given, is_short, row_bytes, text_in};
ghost use Rattle.rule_host.specs.Stored.{stored_at};

use super::answer::Outcome;
use fixed::slice::Slice;

// What an expression gives at an image, and whether the expression mentions `oldSelf`. A row is given and read as bytes, and kept
// as slices of an arena.
#[derive(Clone, Copy, PartialEq, Eq, Debug)]
pub struct Row<T> {
    pub expression: T,
    pub marked: bool,
    pub image: T,
    pub outcome: Outcome<T>,
}

impl<'a> Row<&'a [u8]> {
    // The text of its outcome, which is empty where there is none.
    pub fn text(self) -> &'a [u8]
        ensures { result.now ≡ text_in (given self.entry).outcome }
    {
        self.outcome.text().unwrap_or(&[])
    }

    // Whether that text is no longer than a host's texts are.
    pub fn is_short(self) -> bool
        ensures { result ≡ is_short (given self.entry).outcome }
    {
        self.outcome.is_short()
    }

    // How many bytes it has, or the most that a number says.
    pub fn size(self) -> usize
        ensures { result ≡ min (row_bytes (given self.entry)) (2 ^ 64 - 1) }
    {
        let both = self.expression.len().saturating_add(self.image.len());
        both.saturating_add(self.text().len())
    }
}

impl Row<Slice> {
    // The bytes where it lies.
    pub(crate) fn of<'a>(self, arena: &'a [u8]) -> Row<&'a [u8]>
        ensures { given result ≡ stored_at arena.now self }
    {
        Row {
            expression: self.expression.of(arena),
            marked: self.marked,
            image: self.image.of(arena),
            outcome: self.outcome.map(|text| text.of(arena)),
        }
    }
}
