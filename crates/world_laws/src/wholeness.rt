//! The law of wholeness.
ghost use Rattle.world_laws.specs.Wholeness.{OneActive, Wholeness};

/// After a boot of a lawful world, and any calls after it, each part of each session that is ACTIVATED or
/// REVERT_IN_PROGRESS is in the active set, from its target. Each module in the active set that was submitted is the one
/// that its name holds, and was submitted by a session that is ACTIVATED, SUCCESS or REVERT_IN_PROGRESS. The active set
/// has each name once.
pub fn activated_sessions_are_whole()
    ensures whole { Wholeness }
    ensures once { OneActive }
{}
