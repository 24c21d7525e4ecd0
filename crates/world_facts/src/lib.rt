//! What is true of each world by itself: laws of lawful worlds, of plain ones and of the rows of a world, and the lemmas
//! that every crate above cites.
#![tactic(auto)]

mod decided;
mod plain;
mod row_laws;

pub use decided::{empty_world_is_lawful, lawful_worlds_are_decided};
pub use plain::{plain_worlds_do_less, plain_worlds_stay_plain};
pub use row_laws::{
    file_rows_weigh_the_modules, rows_are_those_of_their_keys, rows_hold_the_modules,
};
