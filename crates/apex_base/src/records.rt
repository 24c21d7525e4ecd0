//! Modules, sessions and their parts, and what becomes of them. Plain data: the crates above decide which values go
//! together.
ghost use Rattle.std.specs.Prelude.{◌≡◌, find};
ghost use Rattle.std.specs.Option.{option_copied};
ghost use Rattle.std.specs.Str.{bytes_eq};
ghost use Rattle.apex_base.specs.Commit.{rolls_back, undoes};
ghost use Rattle.apex_base.specs.Held.{is_unfinished, is_staged, is_standing, is_undoable, is_success, is_available};
ghost use Rattle.apex_base.specs.Rollbacks.{given_up};
ghost use Rattle.apex_base.specs.Moves.{state_number};

use crate::listed::Listed;
use crate::{Millis, Name, Print, SessionId, Version};

/// A session's state (AOSP's `apexd_session` and `StagingManager`; ABORTED is ours).
#[derive(Clone, Copy, Debug, PartialEq, Eq)]
pub enum State {
    Verified,
    Staged,
    Activated,
    ActivationFailed,
    Success,
    RevertInProgress,
    Reverted,
    Aborted,
}

impl State {
    /// The state's number on a device.
    pub fn number(self) -> u8
        ensures { result ≡ state_number self }
    {
        match self {
            State::Verified => 1,
            State::Staged => 2,
            State::Activated => 3,
            State::ActivationFailed => 4,
            State::Success => 5,
            State::RevertInProgress => 6,
            State::Reverted => 7,
            State::Aborted => 8,
        }
    }

    /// Whether a session in this state may still change what a name holds.
    pub fn is_unfinished(self) -> bool
        ensures { result ≡ is_unfinished self }
    {
        matches!(
            self,
            State::Verified | State::Staged | State::Activated | State::RevertInProgress
        )
    }

    /// Whether the next boot activates a session in this state.
    pub fn is_staged(self) -> bool
        ensures { result ≡ is_staged self }
    {
        matches!(self, State::Staged)
    }

    /// Whether the modules of a session in this state count.
    pub fn is_standing(self) -> bool
        ensures { result ≡ is_standing self }
    {
        matches!(
            self,
            State::Activated | State::Success | State::RevertInProgress
        )
    }

    /// Whether a session in this state can still be undone.
    pub fn is_undoable(self) -> bool
        ensures { result ≡ is_undoable self }
    {
        matches!(self, State::Activated | State::RevertInProgress)
    }

    /// Whether a session in this state was marked successful.
    pub fn is_success(self) -> bool
        ensures { result ≡ is_success self }
    {
        matches!(self, State::Success)
    }
}

/// A rollback's state (AOSP's `RollbackManagerServiceImpl`). No line makes a rollback yet.
#[derive(Clone, Copy, Debug, PartialEq, Eq)]
pub enum RollbackState {
    Enabling,
    Available,
    Committed,
    Deleted,
}

impl RollbackState {
    /// Whether there is a rollback and it is AVAILABLE.
    pub fn is_available(rollback: Option<Self>) -> bool
        ensures { result ≡ is_available rollback }
    {
        matches!(rollback, Some(RollbackState::Available))
    }

    /// What becomes of a rollback that may no longer be used: one that isn't committed yet is deleted.
    pub fn given_up(rollback: Option<Self>) -> Option<Self>
        ensures { result ≡ given_up rollback }
    {
        match rollback {
            Some(RollbackState::Enabling | RollbackState::Available) => {
                Some(RollbackState::Deleted)
            }
            _ => rollback,
        }
    }
}

/// What a session is for. No line makes a session that isn't `Plain` yet.
#[derive(Clone, Copy, PartialEq, Eq)]
pub enum Kind {
    Plain,
    WithRollback,
    RollbackOf(SessionId),
}

impl Kind {
    /// Whether a session of this kind may be rolled back.
    pub fn rolls_back(self) -> bool
        ensures { result ≡ rolls_back self }
    {
        matches!(self, Kind::WithRollback)
    }

    /// Whether a session of this kind takes another back.
    pub fn undoes(self) -> bool
        ensures { result ≡ undoes self }
    {
        matches!(self, Kind::RollbackOf(_))
    }
}

/// Where a module is: on the data partition, or preinstalled.
#[derive(Clone, Copy, Debug, PartialEq, Eq)]
pub enum Place {
    Data,
    Pre,
}

/// What a part of a session makes of its name: a module that a session submitted, or the preinstalled one.
#[derive(Clone, Copy, PartialEq, Eq)]
pub enum Target {
    Preinstalled,
    Module {
        session: SessionId,
        part: u32,
        version: Version,
    },
}

/// Why a part doesn't work: the first case that holds.
#[derive(Clone, Copy, Debug, PartialEq, Eq)]
pub enum Case {
    NotInImage,
    BelowPreinstalled,
    KeyDiffers,
    Unsound,
    NoMount,
}

/// Why a session ended in ACTIVATION_FAILED or REVERTED. No script leads to one yet.
#[derive(Clone, Copy)]
pub enum Cause {
    Reverted,
    OtherBuild,
    Superseded(SessionId),
    Part { name: Name, case: Case },
}

/// One name of a session. `version` is that of the target, None for the preinstalled module.
#[derive(Clone, Copy)]
pub struct Part {
    pub name: Name,
    pub version: Option<Version>,
    pub target: Target,
}

/// The ids of a session's children, seen as a list.
pub type ChildList = Listed<SessionId>;

/// Parts, seen as a list.
pub type PartList = Listed<Part>;

/// What a boot chose for a name: a version and its place, or None if the name is missing.
#[derive(Clone, Copy)]
pub struct Pick {
    pub name: Name,
    pub chosen: Option<(Version, Place)>,
}

impl Listed<Pick> {
    ghost use Rattle.std.specs.Prelude.{◌≡◌, find, option_and_then};
    ghost use Rattle.std.specs.Str.{bytes_eq};

    /// The version and the place that were chosen for a name; None if the name is missing, or is no name of the image. It
    /// takes no memory.
    pub fn find(&self, name: &Name) -> Option<(Version, Place)>
        ensures { result ≡ option_and_then (λ p. p.chosen) (find (λ p. bytes_eq p.name name.now) self.now) }
    {
        match pick_of(self.as_slice(), name) {
            Some(p) => p.chosen,
            None => None,
        }
    }
}

fn pick_of<'a>(picks: &'a [Pick], name: &Name) -> Option<&'a Pick>
    ensures { option_copied result ≡ find (λ p. bytes_eq p.name name.now) picks.now }
{
    picks.iter().find(|p| p.name.is_same(name))
}

/// A session. `activation` is the boot that activated it, 0 for none; `moment` is when its rollback became
/// AVAILABLE, 0 before.
#[derive(Drop)]
pub struct Record {
    pub id: SessionId,
    pub children: ChildList,
    pub kind: Kind,
    pub parts: PartList,
    pub print: Print,
    pub state: State,
    pub cause: Option<Cause>,
    pub activation: u32,
    pub rollback: Option<RollbackState>,
    pub moment: Millis,
}

/// How much the user would notice if an observer acted. No line makes an observer yet.
#[derive(Clone, Copy, Debug, PartialEq, Eq, PartialOrd, Ord)]
pub enum Level {
    None,
    Low,
    Medium,
    High,
}

/// Why a name's health is reported (AOSP's `PackageWatchdog`). No line makes a report yet.
#[derive(Clone, Copy, Debug, PartialEq, Eq)]
pub enum Reason {
    Unknown,
    NativeCrash,
    HealthCheck,
    AppCrash,
    AppNotResponding,
}
