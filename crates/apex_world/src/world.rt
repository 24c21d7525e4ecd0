//! What the world keeps beside sessions.
use crate::modules::SharedModule;
use apex_base::SessionId;

/// The module that a part of a session submitted; parts are counted from 0.
#[derive(Drop)]
pub struct Submission {
    pub session: SessionId,
    pub part: u32,
    pub content: SharedModule,
}
