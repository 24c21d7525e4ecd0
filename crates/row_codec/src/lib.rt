//! Batches of rows as bytes: `docs/formats/batches.md`.
#![tactic(auto)]

mod batch;
mod decode;
mod encode;
mod laws;
#[cfg(test)]
mod tests;

pub use batch::{Batch, Row, RowList};
pub use decode::decode_batch;
pub use encode::{encode_batch, push_batch};
pub use laws::{
    no_bytes_spell_two_batches, reading_undoes_spelling, short_texts_have_few_rows,
    spelling_undoes_reading,
};
