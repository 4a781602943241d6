// A layer that counts the executions of the host below it, and means what that host means.
use fixed::text::BoundedText;
use rule_host::answer::{CompileError, Outcome};
use rule_host::host::RuleHost;

#[derive(Drop)]
pub struct Counting<H: RuleHost> {
    pub below: H,
    pub executions: u64,
}

impl<H: RuleHost> RuleHost for Counting<H> {
    ghost meaning = { λ s. H.RuleHost.meaning s.below };

    ghost accepted = { λ s. H.RuleHost.accepted s.below };

    ghost distinct = { λ s. H.RuleHost.distinct s.below };

    fn compile(&mut self, expression: &[u8]) -> Result<usize, CompileError> {
        self.below.compile(expression)
    }

    fn mentions(&self, program: usize, name: &[u8]) -> Option<bool> {
        self.below.mentions(program, name)
    }

    fn execute(&mut self, program: usize, image: &[u8]) -> Option<Outcome<BoundedText>> {
        self.executions = self.executions.saturating_add(1);
        self.below.execute(program, image)
    }
}
