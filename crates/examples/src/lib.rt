// Worked examples of block libraries, proved.
#![tactic(auto)]

ghost use Rattle.examples.specs.Worked.{WorkedCauses, WorkedValues, WorkedKinds, WorkedRows};

// The causes of five rows.
pub fn causes()
    ensures { WorkedCauses }
{}

// The outputs of some rows.
pub fn values()
    ensures { WorkedValues }
{}

// Names, numbers and shapes of some kinds.
pub fn kinds()
    ensures { WorkedKinds }
{}

// Rows, shapes and tables.
pub fn rows()
    ensures { WorkedRows }
{}
