//! Calls and boots, and what they answer.
ghost use Rattle.std.specs.Prelude.{◌≡◌};
ghost use Rattle.apex_world.specs.Calls.{call_at};

use crate::modules::{ModuleList, PackageList, SharedModule};
use apex_base::{
    Bytes, Cause, Level, Listed, Millis, Name, Pick, Print, Reason, Refusal, RollbackState, Scale,
    SessionId, Shared, State,
};

/// Ids of sessions, seen as a list.
pub type IdList = Listed<SessionId>;

/// Names, seen as a list.
pub type NameList = Listed<Name>;

/// A call of the manager. No line makes a `Revert`, `Commit`, `Put`, `Drop`, `Get`, `Watch` or `Report` yet.
#[derive(Drop)]
pub enum Call {
    Submit {
        id: SessionId,
        children: IdList,
        rollback: bool,
        parts: ModuleList,
    },
    Ready {
        id: SessionId,
    },
    Abort {
        id: SessionId,
    },
    Success {
        time: Millis,
        id: SessionId,
    },
    Revert,
    Commit {
        id: SessionId,
    },
    Put {
        name: Name,
        key: Name,
        value: Bytes,
    },
    Drop {
        name: Name,
        key: Name,
    },
    Get {
        name: Name,
        key: Name,
    },
    StateOf {
        id: SessionId,
    },
    Watch {
        time: Millis,
        observer: Name,
        duration: Millis,
        names: NameList,
    },
    Report {
        time: Millis,
        name: Name,
        reason: Reason,
    },
}

/// A borrowed call.
#[derive(Clone, Copy)]
pub enum CallRef<'a> {
    Submit {
        id: SessionId,
        children: &'a [SessionId],
        rollback: bool,
        parts: &'a [SharedModule],
    },
    Ready {
        id: SessionId,
    },
    Abort {
        id: SessionId,
    },
    Success {
        time: Millis,
        id: SessionId,
    },
    Revert,
    Commit {
        id: SessionId,
    },
    Put {
        name: &'a Name,
        key: &'a Name,
        value: &'a [u8],
    },
    Drop {
        name: &'a Name,
        key: &'a Name,
    },
    Get {
        name: &'a Name,
        key: &'a Name,
    },
    StateOf {
        id: SessionId,
    },
    Watch {
        time: Millis,
        observer: &'a Name,
        duration: Millis,
        names: &'a [Name],
    },
    Report {
        time: Millis,
        name: &'a Name,
        reason: Reason,
    },
}

impl Call {
    /// The call, borrowed.
    pub fn borrowed(&self) -> CallRef<'_>
        ensures { call_at result ≡ self.now }
    {
        match self {
            Call::Submit {
                id,
                children,
                rollback,
                parts,
            } => CallRef::Submit {
                id: *id,
                children: children.as_slice(),
                rollback: *rollback,
                parts: parts.as_slice(),
            },
            Call::Ready { id } => CallRef::Ready { id: *id },
            Call::Abort { id } => CallRef::Abort { id: *id },
            Call::Success { time, id } => CallRef::Success {
                time: *time,
                id: *id,
            },
            Call::Revert => CallRef::Revert,
            Call::Commit { id } => CallRef::Commit { id: *id },
            Call::Put { name, key, value } => CallRef::Put {
                name,
                key,
                value: value.as_slice(),
            },
            Call::Drop { name, key } => CallRef::Drop { name, key },
            Call::Get { name, key } => CallRef::Get { name, key },
            Call::StateOf { id } => CallRef::StateOf { id: *id },
            Call::Watch {
                time,
                observer,
                duration,
                names,
            } => CallRef::Watch {
                time: *time,
                observer,
                duration: *duration,
                names: names.as_slice(),
            },
            Call::Report { time, name, reason } => CallRef::Report {
                time: *time,
                name,
                reason: *reason,
            },
        }
    }
}

/// What a call answers. No call answers `Committed`, `Value`, `Noted` or `Triggered` yet.
#[derive(Drop)]
pub enum Reply {
    Done,
    Committed(SessionId),
    Value(Bytes),
    State(State, Option<RollbackState>),
    Noted,
    Triggered(Option<Name>, IdList),
    Refused(Refusal),
}

/// A build: its fingerprint, and its preinstalled modules, each name once.
#[derive(Drop)]
pub struct Image {
    pub print: Print,
    pub modules: PackageList,
}

/// What an observer is: one of a fixed level, or the one that commits rollbacks.
#[derive(Clone, Copy)]
pub enum ObserverKind {
    Fixed(Level),
    Rollback,
}

/// Somebody who may act when a module fails. No line makes one yet.
#[derive(Clone, Copy)]
pub struct Observer {
    pub name: Name,
    pub kind: ObserverKind,
}

/// Observers in the order of their registration, seen as a list.
pub type ObserverList = Listed<Observer>;

/// What a device boots with. Boots of one image share it.
#[derive(Drop)]
pub struct BootOrder {
    pub scale: Scale,
    pub image: Shared<Image>,
    pub observers: ObserverList,
    pub time: Millis,
}

/// A session whose state a boot changed.
#[derive(Clone, Copy)]
pub struct Changed {
    pub id: SessionId,
    pub state: State,
    pub cause: Option<Cause>,
}

/// Changed sessions, seen as a list.
pub type ChangeList = Listed<Changed>;

/// What a boot chose for each name of the image, ascending by name; seen as a list.
pub type ActiveSet = Listed<Pick>;

/// What a boot answers: its number, the sessions that it changed, the active set, and the trigger of the boot
/// loop, if there was one: who acts, if anybody, and the sessions that were made. So far nobody acts.
#[derive(Drop)]
pub struct BootReply {
    pub number: u32,
    pub changes: ChangeList,
    pub active: ActiveSet,
    pub boot_loop: Option<(Option<Name>, IdList)>,
}
