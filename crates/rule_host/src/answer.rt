// What a rule host answers.
ghost use Rattle.std.specs.Prelude.{◌≡◌};
ghost use Rattle.std.specs.Option.{ForSome};
ghost use Rattle.rule_host.specs.Outcomes.{text_of, outcome_map, MapsOutcome};
ghost use Rattle.rule_host.specs.Rows.{is_short};

use fixed::text::{BoundedText, MOST};

// What an expression gives at an image. A host's texts are bounded, those of a book that is being made are given, and those of a
// stored row lie in the book's arena.
#[derive(Clone, Copy, PartialEq, Eq, Debug)]
pub enum Outcome<T> {
    True,
    False,
    Text(T),
    // A value that is neither a truth value nor a text.
    Other,
    // The name that the expression uses and the host does not know.
    Undeclared(T),
    Failure(T),
}

// Why an expression has no number.
#[derive(Clone, Copy, PartialEq, Eq, Debug)]
pub enum CompileError {
    // The host does not take the expression, and says why.
    Ill(BoundedText),
    // The host has no room for one more.
    Full,
}

impl<T> Outcome<T> {
    // The text, if there is one.
    pub fn text(self) -> Option<T>
        ensures { result ≡ text_of self }
    {
        match self {
            Outcome::Text(text) | Outcome::Undeclared(text) | Outcome::Failure(text) => Some(text),
            _ => None,
        }
    }

    // The same with another text.
    pub fn map<U, F: FnOnce(T) -> U>(self, f: F) -> Outcome<U>
        requires { ForSome (text_of self) (F.pre f) }
        ensures { MapsOutcome (F.post f) self result }
    {
        match self {
            Outcome::True => Outcome::True,
            Outcome::False => Outcome::False,
            Outcome::Text(text) => Outcome::Text(f(text)),
            Outcome::Other => Outcome::Other,
            Outcome::Undeclared(name) => Outcome::Undeclared(f(name)),
            Outcome::Failure(text) => Outcome::Failure(f(text)),
        }
    }
}

impl<'a> Outcome<&'a [u8]> {
    // Whether the text, if there is one, is no longer than a host's texts are.
    pub fn is_short(self) -> bool
        ensures { result ≡ is_short (outcome_map (λ t. t.now) self.entry) }
    {
        self.text().unwrap_or(&[]).len() <= MOST
    }
}
