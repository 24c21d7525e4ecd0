//! Why a call is refused, with the values that a person would ask for next.
use crate::{Boxed, ModuleFault, Name, RollbackState, SessionId, State, Version};

/// The causes, in the order in which a call's checks name them. A refusal changes nothing. No line leads to `Parts`,
/// `TwiceNamed` or one of those after `BadState` yet.
#[derive(Drop)]
pub enum Refusal {
    IdRange {
        id: SessionId,
    },
    IdTaken {
        id: SessionId,
    },
    Parts {
        count: u32,
    },
    /// `part` is counted from 1. The fault is boxed, since it may hold a path and two digests.
    Module {
        part: u32,
        fault: Boxed<ModuleFault>,
    },
    TwiceNamed {
        name: Name,
    },
    NotPreinstalled {
        name: Name,
    },
    KeyDiffers {
        name: Name,
    },
    Overlap {
        name: Name,
        id: SessionId,
    },
    Downgrade {
        name: Name,
        active: Version,
        given: Version,
    },
    SessionsFull {
        units: u32,
    },
    StoreFull {
        weight: u64,
    },
    NoSession {
        id: SessionId,
    },
    BadState {
        state: State,
    },
    NothingToRevert,
    NoRollback {
        id: SessionId,
    },
    NotAvailable {
        state: RollbackState,
    },
    UnknownModule {
        name: Name,
    },
    DataFull {
        weight: u64,
    },
    NoKey {
        key: Name,
    },
    NoObserver {
        name: Name,
    },
}
