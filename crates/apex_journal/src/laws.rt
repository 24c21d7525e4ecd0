//! Laws of the format, for those who read it: the bytes of a store have one meaning.
ghost use Rattle.std.specs.Prelude.{◌≡◌, ℕ, List};
ghost use Rattle.apex_base.specs.declared.numbers.Scale.{Scale};
ghost use Rattle.apex_journal.specs.Journal.{Opens};
ghost use Rattle.apex_journal.specs.Refusals.{IsDamaged};

/// No file has two lists of records.
pub fn records_are_one()
    ensures { (scale : Scale) (file : List ℕ) (xs ys : List (List ℕ)) → Opens scale file xs → Opens scale file ys → xs ≡ ys }
{}

/// No file that is damaged has a list of records.
pub fn damaged_has_no_records()
    ensures { (scale : Scale) (file : List ℕ) (xs : List (List ℕ)) (offset : ℕ) → Opens scale file xs → IsDamaged scale file offset → ⊥ }
{}
