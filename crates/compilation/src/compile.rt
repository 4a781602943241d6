// Gives the rules of a schema to a host.
ghost use Rattle.std.specs.Prelude.{◌≡◌};
ghost use Rattle.compilation.specs.Compiled.{fate_in};
ghost use Rattle.compilation.specs.Fates.{fated, with_message};
ghost use Rattle.json_values.specs.Meaning.{part_of};
ghost use Rattle.schema.specs.Laws.{rule_said};
ghost use Rattle.std.specs.Option.{option_map};

use super::validation::{CompilationError, CompilationResult, Validation};
use fixed::refusal::Full;
use json_values::parts::Part;
use rule_host::answer::CompileError;
use rule_host::host::RuleHost;
use schema::rule::{InvalidRule, Rule};

// The message expression of a rule that has a program. What it takes stands together only here, so no struct holds it.
fn compile_message<H: RuleHost>(
    host: &mut H,
    text: &[u8],
    message: Option<Part>,
    program: usize,
    is_transition_rule: bool,
) -> Result<Validation, Full>
    ensures kept { H.meaning host.new ≡ H.meaning host.old }
    ensures answer { fate_in result ≡ (with_message (H.meaning host.old) program is_transition_rule (option_map (part_of (λ _. text.now)) message) (H.accepted host.old)).fate }
    ensures list { H.accepted host.new ≡ (with_message (H.meaning host.old) program is_transition_rule (option_map (part_of (λ _. text.now)) message) (H.accepted host.old)).accepted }
{
    let Some(part) = message else {
        return Ok(Ok(CompilationResult {
            program,
            is_transition_rule,
            message_program: None,
        }));
    };
    match host.compile(part.of(text)) {
        Ok(message) => Ok(Ok(CompilationResult {
            program,
            is_transition_rule,
            message_program: Some(message),
        })),
        Err(error) => match error {
            CompileError::Ill(why) => Ok(Err(CompilationError::MessageExpressionParse(why))),
            CompileError::Full => Err(Full),
        },
    }
}

// Compiles a rule, then, if it is well, its message expression. There is no answer where the host's list is full. (The
// text moves out of a refusal by a match within a match: a pattern of two levels gets no proof.)
pub fn compile_rule<H: RuleHost>(
    host: &mut H,
    text: &[u8],
    rule: Result<Rule, InvalidRule>,
) -> Result<Validation, Full>
    ensures kept { H.meaning host.new ≡ H.meaning host.old }
    ensures answer { fate_in result ≡ (fated (H.meaning host.old) (H.accepted host.old) (rule_said text.now rule)).fate }
    ensures list { H.accepted host.new ≡ (fated (H.meaning host.old) (H.accepted host.old) (rule_said text.now rule)).accepted }
{
    let Ok(rule) = rule else {
        return Ok(Err(CompilationError::InvalidRule));
    };
    match host.compile(rule.rule.of(text)) {
        Ok(program) => {
            let mentions = host.mentions(program, b"oldSelf").unwrap_or(false);
            compile_message(host, text, rule.message_expression, program, mentions)
        }
        Err(error) => match error {
            CompileError::Ill(why) => Ok(Err(CompilationError::Parse(why))),
            CompileError::Full => Err(Full),
        },
    }
}
