//! What a core answers to a call.
use apex_world::Reply;

/// The reply to a call, or that there was no memory for it.
#[derive(Drop)]
pub enum Answer {
    Answered(Reply),
    /// Memory ran out, and nothing changed. `entered` says whether the turn is in the core's history all the same: so far
    /// it never is, since no core keeps a history.
    NoMemory { entered: bool },
}
