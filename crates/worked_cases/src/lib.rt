// The worked cases of every layer, proved together.
#![tactic(auto)]

ghost use Rattle.worked_cases.specs.Worked.{WorkedCases};

pub fn worked_cases_stand()
    ensures { WorkedCases }
{}
