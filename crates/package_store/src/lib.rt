//! The rows of modules and of names: what a call or a boot writes of them, and what is read from them.
#![tactic(auto)]

mod changes;
mod earlier;
mod held;
mod kept;
mod laws;
mod naming;
mod placing;
mod reading;
mod settling;
#[cfg(test)]
mod tests;
mod weight;

pub use held::{HeldByName, held_by_name, target_of_name};
pub use kept::KeptParts;
pub use laws::{rows_are_those_shown, settled_by_key};
pub use placing::put;
pub use reading::module_of;
pub use settling::{settle, settle_held};
pub use weight::kept_weight;
