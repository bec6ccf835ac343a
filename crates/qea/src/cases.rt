//! The worked cases, by computation.

ghost use Rattle.qea.specs.WorkedCases.{WorkedCasesComeOut};

pub fn worked_cases_come_out()
    ensures { WorkedCasesComeOut }
{}
