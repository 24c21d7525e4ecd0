//! What a core keeps beside its rows, so that no call walks over them.
use crate::unfinished::UnfinishedByName;
use apex_base::{Millis, Record, Scale, Shared};
use apex_world::{ActiveSet, Image};

/// The sessions, ascending by id, what they sum up to, and what runs since the last boot.
#[derive(Drop)]
pub struct Tables {
    pub scale: Scale,
    pub sessions: Vec<Record>,
    /// By their names, those that are unfinished.
    pub unfinished: UnfinishedByName,
    /// How many units the sessions have.
    pub units: u32,
    /// What the modules weigh that are kept.
    pub weight: u64,
    pub image: Shared<Image>,
    pub active: ActiveSet,
    pub clock: Millis,
}
