//! Laws of the definitions, for callers.
ghost use Rattle.std.specs.Prelude.{◌≡◌, ℕ, List};
ghost use Rattle.std.specs.FinMap as fin;
ghost use Rattle.std.specs.declared.alloc.Global.{Global};
ghost use Rattle.std.specs.declared.vec.Vec.{Vec};
ghost use Rattle.apex_base.specs.declared.records.Record.{Record};
ghost use Rattle.apex_base.specs.Keys.{Key, IsKey, RowMap, key_text};
ghost use Rattle.row_map.specs.Rows.{rows_of, shown};
ghost use Rattle.package_store.specs.Settled.{settled_row, settled_value};

/// What a row comes to, by what it is of.
pub fn settled_by_key()
    ensures { (rows : RowMap) (records : List Record) (key : Key) → IsKey key
        → settled_value rows records (key_text key) ≡ settled_row rows records key }
{}

/// Rows whose entries a `BTreeMap` shows are the rows that it holds.
pub fn rows_are_those_shown()
    ensures { (rows : RowMap) (entries : List (Vec ℕ Global × List ℕ)) → fin.entries rows ≡ shown entries
        → rows_of entries ≡ rows }
{}
