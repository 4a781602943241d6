// How an answer book is made: rows are added one by one, and the book is then closed.
ghost use Rattle.std.specs.Prelude.{◌≡◌, [], IfOk};
ghost use Rattle.fixed.specs.Room.{granted};
ghost use Rattle.rule_host.specs.Laws.{BookLaws};
ghost use Rattle.rule_host.specs.Rows.{expressions_at, given, offered};

use crate::answer_book::{AnswerBook, EXPRESSIONS};
use crate::book::Book;
pub use crate::book::{ROW_BYTES, ROWS};
use crate::row::Row;
use fixed::list::FixedList;
use fixed::refusal::Full;
use std::alloc::{AllocError, Global};
use std::marker::Model;

// A book that still takes rows, with the memory that its host will need.
#[derive(Drop)]
pub struct BookMaker {
    book: Book,
    accepted: FixedList<usize, EXPRESSIONS>,
}

impl Model for BookMaker {
    ghost use Rattle.std.specs.Prelude.{◌≡◌, List, []};
    ghost use Rattle.rule_host.specs.Rows.{BookRow};

    ghost Value = { List BookRow };

    ghost view = { λ m. m.book };

    ghost invariant = { λ m. m.accepted ≡ [] };
}

impl BookMaker {
    // A book without rows. All memory that the book and its host need is taken here.
    pub fn new(heap: Global) -> Result<BookMaker, AllocError>
        ensures { IfOk result (λ m. m ≡ []) }
    {
        let book = Book::new(heap)?;
        let accepted = FixedList::new(heap)?;
        Ok(BookMaker { book, accepted })
    }

    // Adds a row: what an expression gives at an image, and whether the expression mentions `oldSelf`.
    // A row whose text has more than 1,024 bytes is passed over; one that finds no room is refused.
    pub fn add(&mut self, row: Row<&[u8]>) -> Result<(), Full>
        ensures answer { result ≡ granted (offered self.old (given row.entry)).0 }
        ensures rows { self.new ≡ (offered self.old (given row.entry)).1 }
    {
        self.book.add(row)
    }

    // The host of these rows. It has accepted nothing yet.
    #[tactic(auto, using(crate::proofs::Searches::book_laws))]
    pub fn finish(self) -> AnswerBook
        ensures rows { result.book ≡ self }
        ensures accepted { expressions_at result.book result.accepted ≡ [] }
        ensures laws { BookLaws }
    {
        let BookMaker { book, accepted } = self;
        AnswerBook::open(book, accepted)
    }
}
