// The rows of an answer book in memory that is taken once.
ghost use Rattle.std.specs.Prelude.{◌≡◌, ◌+◌, ◌≤◌, [], ◌++◌, length, take, IfOk};
ghost use Rattle.std.specs.Option.{option_map};
ghost use Rattle.fixed.specs.Room.{granted};
ghost use Rattle.rule_host.specs.BookMeaning.{book_meaning};
ghost use Rattle.rule_host.specs.Rows.{expression_at, given, has_space, offered, place_for, present, row_at, row_bytes, row_for};

use crate::answer::Outcome;
use crate::row::Row;
use fixed::list::FixedList;
use fixed::refusal::Full;
use fixed::slice::Slice;
use fixed::text::{BoundedText, MOST};
use std::alloc::{AllocError, Global};
use std::marker::Model;

// The most rows.
pub const ROWS: usize = 1024;

// The most bytes of expressions, images and texts together.
pub const ROW_BYTES: usize = 262144;

// Rows whose texts lie in an arena, one behind the other.
#[derive(Drop)]
pub struct Book {
    arena: FixedList<u8, ROW_BYTES>,
    rows: FixedList<Row<Slice>, ROWS>,
}

impl Model for Book {
    ghost use Rattle.std.specs.Prelude.{List};
    ghost use Rattle.rule_host.specs.Rows.{BookRow};

    ghost Value = { List BookRow };

    ghost use Rattle.rule_host.specs.Books.{Kept, rows_in};

    ghost view = { rows_in };

    ghost invariant = { Kept };
}

// A text of these bytes, or of as many of the first as a text may have.
pub fn short_text(bytes: &[u8]) -> BoundedText
    ensures { result ≡ take 1024 bytes.now }
{
    let first = Slice {
        start: 0,
        len: MOST,
    };
    let mut text = BoundedText::new();
    let _ = text.append(first.of(bytes));
    text
}

// Puts bytes at the end of the arena.
fn append(arena: &mut FixedList<u8, ROW_BYTES>, bytes: &[u8]) -> Slice
    requires { length arena.old + length bytes.now ≤ 262144 }
    ensures arena { arena.new ≡ arena.old ++ bytes.now }
    ensures start { result.start ≡ length arena.old }
    ensures len { result.len ≡ length bytes.now }
{
    let start = arena.len();
    let _ = arena.extend_from_slice(bytes);
    Slice {
        start,
        len: bytes.len(),
    }
}

impl Book {
    // A book without rows, whose room is taken here.
    pub fn new(heap: Global) -> Result<Book, AllocError>
        ensures { IfOk result (λ b. b ≡ []) }
    {
        let arena = FixedList::new(heap)?;
        let rows = FixedList::new(heap)?;
        Ok(Book { arena, rows })
    }

    // Whether there is room for one more row.
    fn has_space(&self, row: Row<&[u8]>) -> bool
        ensures { result ≡ has_space self.now (row_bytes (given row.entry)) }
    {
        self.rows.len() < ROWS && row.size() <= ROW_BYTES - self.arena.len()
    }

    // Adds a row at the end. One whose text is too long for a host counts as absent.
    pub fn add(&mut self, row: Row<&[u8]>) -> Result<(), Full>
        ensures answer { result ≡ granted (offered self.old (given row.entry)).0 }
        ensures rows { self.new ≡ (offered self.old (given row.entry)).1 }
    {
        if !row.is_short() {
            return Ok(());
        }
        if !self.has_space(row) {
            return Err(Full);
        }
        let expression = append(&mut self.arena, row.expression);
        let image = append(&mut self.arena, row.image);
        let text = append(&mut self.arena, row.text());
        self.rows.push(Row {
            expression,
            marked: row.marked,
            image,
            outcome: row.outcome.map(|_| text),
        })
    }

    // The place of the first row of an expression.
    pub fn place_of(&self, expression: &[u8]) -> Option<usize>
        ensures place { result ≡ place_for expression.now self.now }
        ensures present { present self.now ≡ self.now }
    {
        let arena = self.arena.as_slice();
        let rows = self.rows.as_slice();
        rows.iter()
            .position(|row| row.expression.of(arena) == expression)
    }

    // The expression of the row at a place, which is empty where there is no row.
    pub fn expression(&self, place: usize) -> &[u8]
        ensures { result.now ≡ expression_at self.now place }
    {
        let arena = self.arena.as_slice();
        self.rows
            .get(place)
            .map_or(&[], |row| row.expression.of(arena))
    }

    // The first row of an expression.
    fn row_for(&self, expression: &[u8]) -> Option<Row<&[u8]>>
        ensures { option_map given result ≡ row_for expression.now (present self.now) }
    {
        let arena = self.arena.as_slice();
        let rows = self.rows.as_slice();
        rows.iter()
            .find(|row| row.expression.of(arena) == expression)
            .map(|row| row.of(arena))
    }

    // The first row of an expression and an image.
    fn row_at(&self, expression: &[u8], image: &[u8]) -> Option<Row<&[u8]>>
        ensures { option_map given result ≡ row_at expression.now image.now (present self.now) }
    {
        let arena = self.arena.as_slice();
        let rows = self.rows.as_slice();
        rows.iter()
            .find(|row| row.expression.of(arena) == expression && row.image.of(arena) == image)
            .map(|found| found.of(arena))
    }

    // What the first row of an expression and an image says that it gives there.
    pub fn outcome(&self, expression: &[u8], image: &[u8]) -> Outcome<BoundedText>
        ensures { result ≡ (book_meaning self.now).evaluation expression.now image.now }
    {
        match self.row_at(expression, image) {
            Some(row) => row.outcome.map(short_text),
            None => Outcome::Failure(short_text(b"no row")),
        }
    }

    // Whether an expression mentions a name: the mark of its first row speaks of `oldSelf`.
    pub fn mentions(&self, expression: &[u8], name: &[u8]) -> bool
        ensures { result ≡ (book_meaning self.now).mentioned expression.now name.now }
    {
        name == b"oldSelf".as_slice() && self.row_for(expression).is_some_and(|row| row.marked)
    }
}
