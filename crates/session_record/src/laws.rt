//! A law of the spelling, over every list of bytes. `apex_base` has those of the other direction.
ghost use Rattle.std.specs.Prelude.{◌≡◌, ℕ, ◌<◌, List, Some, slice_index};
ghost use Rattle.apex_base.specs.declared.numbers.SessionId.{SessionId};
ghost use Rattle.apex_base.specs.declared.records.Record.{Record};
ghost use Rattle.apex_base.specs.Spelling.{IsId, Spells, record_of};

/// What is read from bytes is spelled by them, each byte of it.
pub fn spelling_undoes_reading()
    ensures { (id : SessionId) (bytes : List ℕ) (r : Record) → IsId id → ((i : ℕ) → slice_index bytes i < 256)
        → record_of id bytes ≡ Some r → (r.id ≡ id) × Spells bytes r }
{}
