// Which names the paths of a rule begin with.
ghost use Rattle.rule_syntax.specs.Syntax.{meant, meant_operand};
ghost use Rattle.rule_syntax.specs.Mention.{begins_with, mentioned};
ghost use Rattle.std.specs.Prelude.{◌≡◌, ◌||◌, map};

use crate::rule::{Comparison, Operand};
use crate::word::split_point;

#[tactic(auto, using(crate::proofs::FirstNames::first_is))]
fn begins_with(expression: &[u8], operand: Operand, name: &[u8]) -> bool
    ensures { result ≡ begins_with (meant_operand expression.now operand) name.now }
{
    let Operand::Path(place) = operand else {
        return false;
    };
    let (first, _) = split_point(place.of(expression));
    first == name
}

// Whether a path of the comparison begins with `name`.
fn either_begins(expression: &[u8], comparison: Comparison, name: &[u8]) -> bool
    ensures { result ≡ (begins_with (meant_operand expression.now comparison.left) name.now || begins_with (meant_operand expression.now comparison.right) name.now) }
{
    begins_with(expression, comparison.left, name)
        || begins_with(expression, comparison.right, name)
}

// Whether some path among these comparisons, which were read from `expression`, begins with `name`.
pub fn mentions(expression: &[u8], comparisons: &[Comparison], name: &[u8]) -> bool
    ensures { result ≡ mentioned (map (meant expression.now) comparisons.now) name.now }
{
    comparisons
        .iter()
        .any(|comparison| either_begins(expression, *comparison, name))
}
