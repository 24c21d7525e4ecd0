//! Laws of what bytes hold, for those who read them: they have one meaning.
ghost use Rattle.std.specs.Prelude.{◌≡◌, ◌≢◌, ℕ, List};
ghost use Rattle.apex_base.specs.declared.numbers.Scale.{Scale};
ghost use Rattle.row_codec.specs.declared.batch.Row.{Row};
ghost use Rattle.row_store.specs.Rows.{Held, next};
ghost use Rattle.row_store.specs.Store.{HasBadBatch, Stores, StoresEither};

use apex_journal::records_are_one;

/// No file stands for two maps of rows or two numbers, and one that stands for some has no bad batch.
pub fn rows_are_one()
    ensures one { (scale : Scale) (file : List ℕ) (a b : Held) → Stores scale file a → Stores scale file b → a ≡ b }
    ensures not_bad { (scale : Scale) (file : List ℕ) (a : Held) (offset : ℕ) → Stores scale file a → HasBadBatch scale file offset → ⊥ }
    ensures one_bad { (scale : Scale) (file : List ℕ) (x y : ℕ) → HasBadBatch scale file x → HasBadBatch scale file y → x ≡ y }
{
    records_are_one();
}

/// Of what a commit may leave, one whose number is the batch's has the new rows, and every other has the old ones.
pub fn numbers_tell_rows()
    ensures new { (scale : Scale) (file : List ℕ) (held found : Held) (rows : List Row) → StoresEither scale held rows file → Stores scale file found
        → found.seq ≡ (next held rows).seq → found ≡ next held rows }
    ensures old { (scale : Scale) (file : List ℕ) (held found : Held) (rows : List Row) → StoresEither scale held rows file → Stores scale file found
        → found.seq ≢ (next held rows).seq → found ≡ held }
{
    rows_are_one();
}
