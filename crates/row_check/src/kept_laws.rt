//! Laws on the rows of what sessions keep.
ghost use Rattle.std.specs.Prelude.{◌≡◌, ◌≢◌, ◌∷◌, ◌<◌, ◌^◌, ℕ, List, Some};
ghost use Rattle.std.specs.FinMap as fin;
ghost use Rattle.apex_base.specs.declared.numbers.Scale.{Scale};
ghost use Rattle.apex_base.specs.declared.numbers.SessionId.{SessionId};
ghost use Rattle.apex_base.specs.Keys.{RowMap, snapshot_front, pre_restore_front};
ghost use Rattle.row_check.specs.BadRows.{opened_rows, AgreesAt, DiffersAt};
ghost use Rattle.row_check.specs.KeptRows.{kept_row, AreKept};
ghost use Rattle.row_key.specs.Kept.{IsKeptTag, kept_text};

/// The rows of tags 7 and 8 are what the eras of the opened world give: at each key of a session the value that the
/// name had before the boot that activated it, by the rows that count.
pub fn kept_rows_are_those_of_eras()
    ensures snapshot { (m : RowMap) (scale : Scale) (id : SessionId) (name key : List ℕ) → id.0 < 2 ^ 32
        → fin.get (opened_rows m scale) (snapshot_front id name key) ≡ kept_row m 7 id name key }
    ensures pre_restore { (m : RowMap) (scale : Scale) (id : SessionId) (name key : List ℕ) → id.0 < 2 ^ 32
        → fin.get (opened_rows m scale) (pre_restore_front id name key) ≡ kept_row m 8 id name key }
{}

/// The rows of tags 7 and 8 are right if and only if each is of a session, a name and a key, and they are what sessions
/// keep.
pub fn kept_rows_are_what_sessions_keep()
    ensures right { (m : RowMap) (scale : Scale) (tag : ℕ) → IsKeptTag tag → AreKept m tag → AgreesAt m scale tag }
    ensures no_key { (m : RowMap) (scale : Scale) (tag : ℕ) (rest value : List ℕ) → IsKeptTag tag
        → fin.get m (tag ∷ rest) ≡ Some value
        → ((id : SessionId) (name key : List ℕ) → id.0 < 2 ^ 32 → tag ∷ rest ≢ kept_text tag id name key)
        → DiffersAt m scale tag }
    ensures other { (m : RowMap) (scale : Scale) (tag : ℕ) (id : SessionId) (name key : List ℕ) → IsKeptTag tag
        → id.0 < 2 ^ 32 → fin.get m (kept_text tag id name key) ≢ kept_row m tag id name key
        → DiffersAt m scale tag }
{}
