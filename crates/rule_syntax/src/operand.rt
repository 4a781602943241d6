// Operands: numbers, constants and paths.
ghost use Rattle.rule_syntax.specs.Syntax.{constant_of, meant_operand, number_of, numeric, operand_of, part};
ghost use Rattle.std.specs.Prelude.{◌≡◌, List, ℕ, true};
ghost use Rattle.std.specs.Option.{option_map};

use crate::path::is_path;
use crate::rule::Operand;
use fixed::slice::Slice;
use std::str;

// Whether `word` is to be a number.
fn is_numeric(word: &[u8]) -> bool
    ensures { result ≡ numeric word.now }
{
    word.first()
        .is_some_and(|first| first.is_ascii_digit() || *first == b'-')
}

#[tactic(auto, using(crate::proofs::Numbers::number_parsed, crate::proofs::Numbers::no_number))]
fn read_number(word: &[u8]) -> Option<i64>
    ensures { numeric word.now ≡ true → result ≡ number_of word.now }
{
    let digits = str::from_utf8(word).ok()?;
    digits.parse().ok()
}

fn read_constant(word: &[u8]) -> Option<Operand>
    ensures { (s : List ℕ) → option_map (meant_operand s) result ≡ constant_of word.now }
{
    match word {
        b"true" => Some(Operand::Bool(true)),
        b"false" => Some(Operand::Bool(false)),
        b"null" => Some(Operand::Null),
        _ => None,
    }
}

// What the word at `place` in the expression says as an operand.
pub fn read_word(expression: &[u8], place: Slice) -> Option<Operand>
    ensures { option_map (meant_operand expression.now) result ≡ operand_of (part place expression.now) }
{
    let word = place.of(expression);
    if is_numeric(word) {
        return Some(Operand::Int(read_number(word)?));
    }
    if let Some(constant) = read_constant(word) {
        return Some(constant);
    }
    is_path(word).then_some(Operand::Path(place))
}
