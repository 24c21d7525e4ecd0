//! Laws of the spelling of records and of row keys, over all bytes, records and keys.
ghost use Rattle.std.specs.Prelude.{◌≡◌, ℕ, List, Some};
ghost use Rattle.apex_base.specs.declared.records.Record.{Record};
ghost use Rattle.apex_base.specs.Keys.{Key, IsKey, key_text};
ghost use Rattle.apex_base.specs.Spelling.{IsRecord, Spells, record_text, record_of};

/// No bytes spell two records of one id.
pub fn no_bytes_spell_two_records()
    ensures { (bytes : List ℕ) (r s : Record) → r.id ≡ s.id → Spells bytes r → Spells bytes s → r ≡ s }
{}

/// A record that is spelled is read again.
pub fn reading_undoes_spelling()
    ensures { (r : Record) → IsRecord r → record_of r.id (record_text r) ≡ Some r }
{}

/// The row keys of two different things differ.
pub fn no_two_things_have_one_key()
    ensures { (a b : Key) → IsKey a → IsKey b → key_text a ≡ key_text b → a ≡ b }
{}
