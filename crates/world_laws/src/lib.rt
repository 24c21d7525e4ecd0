//! What boots and calls do to worlds: laws over all worlds, calls and boots (`docs/LAWS.md`). Each is the contract of a
//! function that does nothing; a file has the laws of one subject.
#![tactic(auto)]

mod boot_by_rows;
mod data_origins;
mod invariance;
mod kept_by_name;
mod likeness;
mod refusals;
mod rollback_data;
mod row_laws;
mod rows_after;
mod rows_booted;
mod rows_moved;
mod sessions;
mod wholeness;

pub use boot_by_rows::boots_go_by_rows;
pub use data_origins::origins_tell_sources;
pub use invariance::{boots_lead_to_running, calls_keep_running};
pub use kept_by_name::modules_are_kept_by_name;
pub use likeness::{
    alike_worlds_have_the_same_parts, boots_tell_no_alike_worlds_apart,
    calls_tell_no_alike_worlds_apart, quiet_calls_tell_no_alike_worlds_apart,
    worlds_of_the_same_parts_stay_so,
};
pub use refusals::refusals_change_nothing;
pub use rollback_data::rollbacks_bring_back_data;
pub use row_laws::{data_rows_weigh_the_data, rows_open_to_their_world, same_rows_store_the_same};
pub use rows_after::{calls_settle_rows, submits_put_rows};
pub use rows_booted::boots_settle_rows;
pub use rows_moved::{abort_changes_rows, ready_changes_rows, success_changes_rows};
pub use sessions::{ids_are_used_once, sessions_stay};
pub use wholeness::activated_sessions_are_whole;
