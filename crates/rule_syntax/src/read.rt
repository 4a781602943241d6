// A text is read from left to right, each byte into the operand or operator that it belongs to.
ghost use Rattle.rule_syntax.specs.Syntax.{answered, Filled, leading_comparison, leading_operand, leading_operator, left_by, behind_and, meant, meant_operand, parsed, reads, seen, told, Within};
ghost use Rattle.rule_syntax.specs.Grammar.{RulesRead};
ghost use Rattle.std.specs.Prelude.{◌≡◌, length};

use crate::operand::read_word;
use crate::rule::{Comparison, Operand, Operator, Refused, Span};
use crate::word::{skip_spaces, split_word};
use fixed::list::FixedList;
use fixed::refusal::Full;
use fixed::slice::Slice;

// The operator at the front of `text`, the longest that stands there.
fn read_operator(text: &[u8]) -> Option<(Operator, &[u8])>
    ensures { seen (λ o. o) result ≡ leading_operator text.now }
{
    match text {
        [b'=', b'=', rest @ ..] => Some((Operator::Eq, rest)),
        [b'!', b'=', rest @ ..] => Some((Operator::Ne, rest)),
        [b'<', b'=', rest @ ..] => Some((Operator::Le, rest)),
        [b'>', b'=', rest @ ..] => Some((Operator::Ge, rest)),
        [b'<', rest @ ..] => Some((Operator::Lt, rest)),
        [b'>', rest @ ..] => Some((Operator::Gt, rest)),
        _ => None,
    }
}

// A rule that is being read: its whole text, and the end of it that is left. What is read is taken from the front.
#[derive(Drop)]
struct Reader<'a> {
    expression: &'a [u8],
    rest: &'a [u8],
    ghost within: { Within expression.now rest.now },
}

impl<'a> Reader<'a> {
    // An operand, with the spaces around it.
    #[tactic(auto, using(crate::proofs::Readers::word_at_place), unfolding(crate::specs::Syntax::leading_operand))]
    fn operand(&mut self) -> Option<Operand>
        ensures value { reads (meant_operand self.old.expression.now) result self.new.rest.now ≡ leading_operand self.old.rest.now }
        ensures expression { self.new.expression ≡ self.old.expression }
    {
        let text = skip_spaces(self.rest);
        let (word, rest) = split_word(text);
        let place = Slice {
            start: self.expression.len() - text.len(),
            len: word.len(),
        };
        let operand = read_word(self.expression, place)?;
        self.rest = skip_spaces(rest);
        Some(operand)
    }

    fn operator(&mut self) -> Option<Operator>
        ensures value { reads (λ o. o) result self.new.rest.now ≡ leading_operator self.old.rest.now }
        ensures expression { self.new.expression ≡ self.old.expression }
    {
        let (operator, rest) = read_operator(self.rest)?;
        self.rest = rest;
        Some(operator)
    }

    #[tactic(auto, unfolding(crate::specs::Syntax::leading_comparison))]
    fn comparison(&mut self) -> Option<Comparison>
        ensures value { reads (meant self.old.expression.now) result self.new.rest.now ≡ leading_comparison self.old.rest.now }
        ensures expression { self.new.expression ≡ self.old.expression }
    {
        Some(Comparison {
            left: self.operand()?,
            operator: self.operator()?,
            right: self.operand()?,
        })
    }

    // Passes over the `&&` in front.
    fn skip_and(&mut self) -> Option<()>
        ensures value { left_by result self.new.rest.now ≡ behind_and self.old.rest.now }
        ensures expression { self.new.expression ≡ self.old.expression }
    {
        self.rest = self.rest.strip_prefix(b"&&")?;
        Some(())
    }
}

// Adds the comparisons of a rule as far as there is room, and reads it to its end in any case.
fn read_rule<const N: usize>(
    expression: &[u8],
    comparisons: &mut FixedList<Comparison, N>,
) -> Result<(), Refused>
    ensures { Filled N expression.now comparisons.old result comparisons.new }
{
    let mut reader = Reader {
        expression,
        rest: expression,
    };
    let mut room: Result<(), Full> = Ok(());
    loop {
        let comparison = reader.comparison().ok_or(Refused::Syntax)?;
        room = room.and(comparisons.push(comparison));
        if reader.rest.is_empty() {
            return room.map_err(|_| Refused::Full);
        }
        reader.skip_and().ok_or(Refused::Syntax)?;
    }
}

// Reads a rule and adds its comparisons to the table; where it is refused, the table is left as it was.
pub fn parse<const N: usize>(
    expression: &[u8],
    comparisons: &mut FixedList<Comparison, N>,
) -> Result<Span, Refused>
    ensures value { answered expression.now (length comparisons.old) result comparisons.new ≡ told N comparisons.old (parsed expression.now) }
    ensures law { RulesRead }
{
    let start = comparisons.len();
    match read_rule(expression, comparisons) {
        Ok(()) => Ok(Span {
            start,
            len: comparisons.len() - start,
        }),
        Err(refused) => {
            comparisons.truncate(start);
            Err(refused)
        }
    }
}
