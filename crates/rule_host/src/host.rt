// The trait of rule hosts.
ghost use Rattle.std.specs.Prelude.{◌≡◌, ℕ, List};
ghost use Rattle.rule_host.specs.Compiling.{compiled, mentions_at, evaluation_at, Distinct};
ghost use Rattle.rule_host.specs.Meaning.{Meaning};

use super::answer::{CompileError, Outcome};
use fixed::text::BoundedText;

// A host of rules. It takes its memory when it is made; no method allocates.
pub trait RuleHost {
    // What expressions mean to it. No method changes this.
    ghost meaning: { Self → Meaning };

    // The expressions that it has accepted, by number.
    ghost accepted: { Self → List (List ℕ) };

    // No expression stands there twice.
    ghost distinct: { (h : Self) → Distinct (accepted h) };

    // Gives an expression a number. An ill one is rejected, a known one keeps its number, and a new
    // one needs room.
    fn compile(&mut self, expression: &[u8]) -> Result<usize, CompileError>
        ensures kept { meaning self.new ≡ meaning self.old }
        ensures answer { result ≡ (compiled (meaning self.old) (accepted self.old) expression.now).0 }
        ensures list { accepted self.new ≡ (compiled (meaning self.old) (accepted self.old) expression.now).1 };

    // Whether a program mentions a name; `None` where no program has that number.
    fn mentions(&self, program: usize, name: &[u8]) -> Option<bool>
        ensures { result ≡ mentions_at (meaning self.now) (accepted self.now) program name.now };

    // What a program gives at an image; `None` where no program has that number.
    fn execute(&mut self, program: usize, image: &[u8]) -> Option<Outcome<BoundedText>>
        ensures kept { meaning self.new ≡ meaning self.old }
        ensures list { accepted self.new ≡ accepted self.old }
        ensures answer { result ≡ evaluation_at (meaning self.old) (accepted self.old) program image.now };
}
