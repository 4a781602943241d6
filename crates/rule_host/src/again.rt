// What any rule host does with an expression that it is given twice.
ghost use Rattle.std.specs.Prelude.{◌≡◌};
ghost use Rattle.rule_host.specs.Compiling.{compiled};
ghost use Rattle.rule_host.specs.Laws.{CompilingLaws};

use super::answer::CompileError;
use super::host::RuleHost;

// Compiles an expression twice: the second answer is the first, and the host's list is as after the first.
pub fn compile_twice<H: RuleHost>(
    host: &mut H,
    expression: &[u8],
) -> (Result<usize, CompileError>, Result<usize, CompileError>)
    ensures kept { H.meaning host.new ≡ H.meaning host.old }
    ensures first { result.0 ≡ (compiled (H.meaning host.old) (H.accepted host.old) expression.now).0 }
    ensures same { result.1 ≡ result.0 }
    ensures list { H.accepted host.new ≡ (compiled (H.meaning host.old) (H.accepted host.old) expression.now).1 }
    ensures laws { CompilingLaws }
{
    let first = host.compile(expression);
    let second = host.compile(expression);
    (first, second)
}
