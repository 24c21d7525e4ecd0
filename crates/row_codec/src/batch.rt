//! Rows, and the batches in which they change.

use apex_base::{Bytes, Listed};

/// What becomes of a key: it has this value from now on, or with None it has none.
#[derive(Drop)]
pub struct Row {
    pub key: Listed<u8>,
    pub value: Option<Bytes>,
}

/// Rows, seen as a list.
pub type RowList = Listed<Row>;

/// Rows that change together, under the batch's number.
#[derive(Drop)]
pub struct Batch {
    pub seq: u64,
    pub rows: RowList,
}
