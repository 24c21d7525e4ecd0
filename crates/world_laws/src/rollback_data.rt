//! The law of a rollback's data.
ghost use Rattle.world_laws.specs.RollbackData.{RollbackData};

/// After a boot that activates the session which the rollback of another session made, each of its names has the data
/// that it had just before the boot which activated that other session. After a boot that reverts it, each of its
/// names that the image has has the data that it had just before the boot which had activated it. Other data stays.
pub fn rollbacks_bring_back_data()
    ensures { RollbackData }
{}
