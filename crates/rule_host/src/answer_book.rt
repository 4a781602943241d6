// A rule host that answers from a book.
ghost use Rattle.std.specs.Prelude.{◌≡◌, ◌≤◌, true, [], ◌∷◌, ◌++◌, length, None};
ghost use Rattle.rule_host.specs.BookMeaning.{book_meaning};
ghost use Rattle.rule_host.specs.Compiling.{place, total, has_room, Distinct};
ghost use Rattle.rule_host.specs.Rows.{expression_at, expressions_at};
ghost use Rattle.std.specs.List.{slice_get};
ghost use Rattle.std.specs.Option.{option_copied};

use crate::answer::{CompileError, Outcome};
use crate::book::{Book, short_text};
use crate::host::RuleHost;
use fixed::list::FixedList;
use fixed::text::BoundedText;

// The most expressions that an answer book accepts.
pub const EXPRESSIONS: usize = 512;

// The most bytes that they may have in all.
pub const BYTES: usize = 65535;

// A book with the expressions accepted so far, as the places of their first rows. It has no model, since the law `distinct` of a
// rule host is said of all values, and the values of a model hold no proof.
#[derive(Drop)]
pub struct AnswerBook {
    book: Book,
    accepted: FixedList<usize, EXPRESSIONS>,
    used: usize,
    ghost counts: { used ≡ total (expressions_at book accepted) },
    ghost small: { used ≤ 65535 },
    ghost distinct: { Distinct (expressions_at book accepted) },
}

impl AnswerBook {
    // A host that has accepted nothing.
    pub(crate) fn open(book: Book, accepted: FixedList<usize, EXPRESSIONS>) -> AnswerBook
        requires { accepted ≡ [] }
        ensures book { result.book ≡ book }
        ensures accepted { expressions_at result.book result.accepted ≡ [] }
    {
        AnswerBook {
            book,
            accepted,
            used: 0,
        }
    }

    // The number of an expression that is accepted.
    fn number_of(&self, expression: &[u8]) -> Option<usize>
        ensures { result ≡ place expression.now (expressions_at self.now.book self.now.accepted) }
    {
        let places = self.accepted.as_slice();
        places
            .iter()
            .position(|place| self.book.expression(*place) == expression)
    }

    // The expression that has a number.
    fn expression(&self, program: usize) -> Option<&[u8]>
        ensures { option_copied result ≡ slice_get (expressions_at self.now.book self.now.accepted) program }
    {
        let place = self.accepted.get(program)?;
        Some(self.book.expression(place))
    }

    // Whether one more expression is within the capacity.
    fn has_room(&self, expression: &[u8]) -> bool
        ensures { result ≡ has_room (book_meaning self.now.book) (expressions_at self.now.book self.now.accepted) expression.now }
    {
        self.accepted.len() < EXPRESSIONS && expression.len() <= BYTES - self.used
    }

    // Puts a new expression, whose first row is the one at `row`, at the end of the list, and gives its number.
    fn accept(&mut self, row: usize, expression: &[u8]) -> usize
        requires stands { expression_at self.old.book row ≡ expression.now }
        requires new { place expression.now (expressions_at self.old.book self.old.accepted) ≡ None }
        requires room { has_room (book_meaning self.old.book) (expressions_at self.old.book self.old.accepted) expression.now ≡ true }
        ensures number { result ≡ length (expressions_at self.old.book self.old.accepted) }
        ensures book { self.new.book ≡ self.old.book }
        ensures list { expressions_at self.new.book self.new.accepted ≡ expressions_at self.old.book self.old.accepted ++ expression.now ∷ [] }
    {
        let number = self.accepted.len();
        let _ = self.accepted.push(row);
        self.used += expression.len();
        number
    }
}

impl RuleHost for AnswerBook {
    ghost meaning = { λ s. book_meaning s.book };

    ghost accepted = { λ s. expressions_at s.book s.accepted };

    ghost distinct = { λ h. h.distinct };

    #[tactic(auto, using(crate::proofs::Accepting::compiles))]
    fn compile(&mut self, expression: &[u8]) -> Result<usize, CompileError> {
        let Some(row) = self.book.place_of(expression) else {
            return Err(CompileError::Ill(short_text(b"not in book")));
        };
        if let Some(number) = self.number_of(expression) {
            return Ok(number);
        }
        if !self.has_room(expression) {
            return Err(CompileError::Full);
        }
        Ok(self.accept(row, expression))
    }

    fn mentions(&self, program: usize, name: &[u8]) -> Option<bool> {
        let expression = self.expression(program)?;
        Some(self.book.mentions(expression, name))
    }

    fn execute(&mut self, program: usize, image: &[u8]) -> Option<Outcome<BoundedText>> {
        let expression = self.expression(program)?;
        Some(self.book.outcome(expression, image))
    }
}
