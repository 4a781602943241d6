// The compiled rules of a schema, in memory that is taken once.
ghost use Rattle.std.specs.Prelude.{◌≡◌, ◌≤◌, [], map, length};
ghost use Rattle.compilation.specs.Compiled.{fate_of, full_at};
ghost use Rattle.compilation.specs.Fates.{all_fated};

use super::compile::compile_rule;
use super::fault::HostFull;
use super::validation::Validation;
use fixed::list::FixedList;
use rule_host::host::RuleHost;
pub use schema_tree::RULES;
use schema_tree::node::RuleEntry;

pub type Validations = FixedList<Validation, RULES>;

// Compiles rules one by one, in place of those that were compiled before, up to one for which the host's list is full.
pub fn compile_rules<H: RuleHost>(
    host: &mut H,
    text: &[u8],
    rules: &[RuleEntry],
    validations: &mut Validations,
) -> Result<(), HostFull>
    requires { length rules.now ≤ 256 }
    ensures kept { H.meaning host.new ≡ H.meaning host.old }
    ensures fated { record { fates = map fate_of validations.new; full = full_at result; accepted = H.accepted host.new } ≡ all_fated (H.meaning host.old) text.now rules.now [] (H.accepted host.old) }
{
    validations.clear();
    for entry in rules {
        let place = entry.place;
        let validation = compile_rule(host, text, entry.rule).map_err(|_| HostFull { place })?;
        let _ = validations.push(validation);
    }
    Ok(())
}
