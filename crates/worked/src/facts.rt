//! Worked facts, shown of the definitions.
ghost use Rattle.worked.specs.Facts.{WorkedFacts};

// The definitions give these values.
pub fn worked_facts()
    ensures { WorkedFacts }
{}
