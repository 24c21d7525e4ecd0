//! The laws of which modules are kept.
ghost use Rattle.world_laws.specs.KeptByName.{AbortedFilesGo, ModulesAreKeptByName};

/// Whether the module of a part is kept is told by the sessions that have the part's name. An abort takes away all
/// modules of a session that no rollback made.
pub fn modules_are_kept_by_name()
    ensures name { ModulesAreKeptByName }
    ensures aborted { AbortedFilesGo }
{}
