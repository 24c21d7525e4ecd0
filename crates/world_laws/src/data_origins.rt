//! Where a boot brings data back from.
ghost use Rattle.world_laws.specs.DataOrigins.{SnapshotsGoByRollbacks, SourcesAreListed};

/// The source of each value after a boot is by the first origin of its name, and these are listed in one pass over the
/// sessions. What a session keeps after a boot, before any commit, goes by its own kind, activation and rollback.
pub fn origins_tell_sources()
    ensures sources { SourcesAreListed }
    ensures snapshots { SnapshotsGoByRollbacks }
{}
