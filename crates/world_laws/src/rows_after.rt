//! The laws of the rows after calls.
ghost use Rattle.world_laws.specs.RowsAfter.{CallsSettleRows, SubmitsAddUnits, SubmitsAddWeight, SubmitsPutRows};

/// After a call that changes nothing but sessions, the clock and the failures, the row at each key is what the sessions
/// afterwards settle from the rows before.
pub fn calls_settle_rows()
    ensures { CallsSettleRows }
{}

/// After a submit, the files of the new session's parts are those of its packages, and the row at each other key is what
/// the sessions afterwards settle. It adds the weight of its modules, and the units of its kind.
pub fn submits_put_rows()
    ensures rows { SubmitsPutRows }
    ensures weight { SubmitsAddWeight }
    ensures units { SubmitsAddUnits }
{}
