//! What judges a call, by rows and the tables beside them: the reply, the rows that it changes, and what it changes in the
//! tables.
#![tactic(auto)]

mod admitting;
mod checked;
mod ending;
mod files;
mod judged;
mod judging;
mod moving;
mod parting;
mod patching;
mod prepared;
mod sessions;
mod submitting;
mod tables;
mod unfinished;
mod units;
mod weighing;

pub use checked::CheckedModule;
pub use judged::{Judged, Patch};
pub use judging::judge;
pub use patching::{apply, make_room};
pub use prepared::{CheckedCall, CheckedSubmit, OtherCall, Prepared, prepare};
pub use sessions::session_with;
pub use tables::Tables;
pub use unfinished::{UnfinishedByName, unfinished_of};
pub use units::units_of;
pub use weighing::weight_after;
