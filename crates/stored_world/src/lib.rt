//! A world as rows keep it: which rows are those of a world, and how a batch leads from the rows of one to those of another.
#![tactic(auto)]

mod records;

pub use records::record_rows;
