//! Laws of the spelling, over every list of bytes and every batch.
ghost use Rattle.std.specs.Prelude.{◌≡◌, ℕ, ◌<◌, ◌^◌, List, Some, length, slice_index};
ghost use Rattle.row_codec.specs.declared.batch.Batch.{Batch};
ghost use Rattle.row_codec.specs.Batch.{IsBatch, Spells, batch_text, batch_of};

/// No bytes spell two batches.
pub fn no_bytes_spell_two_batches()
    ensures { (bytes : List ℕ) (a b : Batch) → Spells bytes a → Spells bytes b → a ≡ b }
{}

/// What is spelled is read again.
pub fn reading_undoes_spelling()
    ensures { (batch : Batch) → IsBatch batch → batch_of (batch_text batch) ≡ Some batch }
{}

/// What is read from bytes is spelled by them, each byte of it.
pub fn spelling_undoes_reading()
    ensures { (bytes : List ℕ) (batch : Batch) → ((i : ℕ) → slice_index bytes i < 256)
        → batch_of bytes ≡ Some batch → Spells bytes batch }
{}

/// A batch whose text is shorter than 2^32 bytes has fewer than 2^32 rows.
pub fn short_texts_have_few_rows()
    ensures { (batch : Batch) → length (batch_text batch) < 2 ^ 32 → length batch.rows < 2 ^ 32 }
{}
