// How many nodes and rules a schema has, and how many of its rules are not executed.
ghost use Rattle.std.specs.Prelude.{◌≡◌, ◌++◌, OnOk, Some};
ghost use Rattle.compilation.specs.Compiled.{fate_of};
ghost use Rattle.schema_report.specs.Counted.{is_ill, is_invalid, summary_line, summary_of, summary_text};

use compilation::validation::{CompilationError, Validation};
use compiled_schema::CompiledSchema;
use std::alloc::{AllocError, Global};
use std::fmt;

#[derive(Clone, Copy, PartialEq, Eq, Debug)]
pub struct Summary {
    pub nodes: usize,
    pub rules: usize,
    pub invalid: usize,
    pub ill: usize,
}

impl fmt::Display for Summary {
    ghost output = { λ s. Some (summary_text s) };

    fn fmt<W: fmt::Write>(&self, f: &mut fmt::Formatter<W>) -> fmt::Result {
        let Summary {
            nodes,
            rules,
            invalid,
            ill,
        } = self;
        write!(
            f,
            "{nodes} nodes, {rules} rules, {invalid} invalid, {ill} ill"
        )
    }
}

fn is_invalid(validation: &Validation) -> bool
    ensures { result ≡ is_invalid (fate_of validation.now) }
{
    matches!(validation, Err(CompilationError::InvalidRule))
}

fn is_ill(validation: &Validation) -> bool
    ensures { result ≡ is_ill (fate_of validation.now) }
{
    match validation {
        Err(CompilationError::Parse(_)) | Err(CompilationError::MessageExpressionParse(_)) => true,
        Ok(_) | Err(CompilationError::InvalidRule) => false,
    }
}

// Counts the nodes and the rules.
pub fn summarize(schema: &CompiledSchema) -> Summary
    ensures { result ≡ summary_of (schema.now) }
{
    let validations = schema.validations();
    let invalid = validations.iter().filter(|v| is_invalid(v)).count();
    let ill = validations.iter().filter(|v| is_ill(v)).count();
    Summary {
        nodes: schema.tree().nodes().len(),
        rules: validations.len(),
        invalid,
        ill,
    }
}

// Appends the counts as a line.
pub fn push_summary(heap: Global, summary: Summary, out: &mut Vec<u8>) -> Result<(), AllocError>
    ensures { OnOk result (out.new.items ≡ out.old.items ++ summary_line summary) }
{
    let line = format!(in heap; "{summary}\n")?;
    out.extend_from_slice(line.as_bytes())?;
    Ok(())
}
