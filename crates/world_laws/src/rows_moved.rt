//! The laws of the rows that calls change which move one session.
ghost use Rattle.world_laws.specs.RowsMoved.{AbortChangesRows, ReadyChangesRows, SuccessChangesRows};

/// Ready changes the session's record, and no other row.
pub fn ready_changes_rows()
    ensures { ReadyChangesRows }
{}

/// Abort changes the session's record. It takes away the files of the session's targets that are kept no more, and the
/// data that was kept for the session which it was to take back.
pub fn abort_changes_rows()
    ensures { AbortChangesRows }
{}

/// Success changes the records of the session and of those whose rollback it outdates. It takes away what the session's
/// names held before it, the files that it and they could have gone back to and that are kept no more, the data that was
/// kept for sessions that are outdated, and what was kept to undo the session.
pub fn success_changes_rows()
    ensures { SuccessChangesRows }
{}
