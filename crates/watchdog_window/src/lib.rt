//! When failures or boots are too many, and which observer acts: `docs/watchdog.md`. Which failures are counted, and what an
//! observer does, is decided above this crate.
#![tactic(auto)]

mod laws;
mod levels;
mod observers;
#[cfg(test)]
mod tests;
mod window;

pub use laws::{windows_tell_failures, windows_tell_loops};
pub use levels::acting;
pub use observers::Observers;
pub use window::Window;
