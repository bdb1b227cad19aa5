// Worked cases of the definitions.
ghost use Rattle.division.specs.Laws.{WorkedCases};

pub fn worked_cases()
    ensures { WorkedCases }
{}
