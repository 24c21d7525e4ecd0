//! The laws of the rows of a lawful world: what they are, what they weigh, and the modules that they hold.
ghost use Rattle.world_facts.specs.RowLaws.{FileRowsWeighTheModules, RowsHaveKeys, RowsHaveTheirValues, RowsHoldTheModules};

/// At each key, the rows of a lawful world have what the definition of its tag says, and each row is that of a key.
pub fn rows_are_those_of_their_keys()
    ensures values { RowsHaveTheirValues }
    ensures keys { RowsHaveKeys }
{}

/// The rows of files weigh as much as the modules that are kept.
pub fn file_rows_weigh_the_modules()
    ensures { FileRowsWeighTheModules }
{}

/// The rows of a part whose module is kept are the module that was submitted.
pub fn rows_hold_the_modules()
    ensures { RowsHoldTheModules }
{}
