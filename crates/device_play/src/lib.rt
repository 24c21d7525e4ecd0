//! The top call: a script is played, and its text is written.
#![tactic(auto)]

mod calls;
mod device;
mod laws;
mod mounts;
mod play;
mod run;
mod source;
mod status;
mod turns;

pub use apex_world::{Fate, TurnRow, Turns};
pub use laws::{
    bad_scripts_are_reported, done_runs_have_a_script, out_of_memory_is_not_silent,
    sink_faults_have_a_script, source_faults_are_silent, usage_errors_are_silent,
};
pub use play::{Played, apex_play};
pub use status::Status;

#[cfg(test)]
mod tests;
