//! Rows of the tags that stand for themselves: boots, sessions, data and watches, and tags that no key has.
ghost use Rattle.std.specs.Prelude.{◌≡◌, true, false, IfOk, OnOk};
ghost use Rattle.std.specs.FinMap as fin;
ghost use Rattle.apex_base.specs.declared.numbers.Scale.{Scale};
ghost use Rattle.row_check.specs.BadRows.{AgreesAt, DiffersAt};
ghost use Rattle.row_check.specs.RightRows.{StandsAlone, WrongRow, is_right_row, is_right_at, are_right_at};
ghost use Rattle.row_key.specs.RowBytes.{FitRow, FitRows};

use crate::boots::is_boots_row;
use crate::watches::is_watch_row;
use row_key::{BOOTS, DATA, RECORD, WATCH, is_data_row, record_in_row};
use row_map::Rows;
use std::alloc::{AllocError, Global};

fn is_right_row(alloc: Global, tag: u8, key: &[u8], value: &[u8]) -> Result<bool, AllocError>
    ensures { IfOk result (λ right. right ≡ is_right_row tag key.now value.now) }
{
    match tag {
        BOOTS => Ok(is_boots_row(key, value)),
        RECORD => {
            let found = record_in_row(alloc, key, value)?;
            Ok(found.is_some())
        }
        DATA => Ok(is_data_row(key)),
        WATCH => Ok(is_watch_row(key, value)),
        _ => Ok(false),
    }
}

/// Whether a row is of another tag, or right.
fn is_right_at(alloc: Global, tag: u8, key: &[u8], value: &[u8]) -> Result<bool, AllocError>
    ensures right { IfOk result (λ right. right ≡ is_right_at tag key.now value.now) }
    ensures fits { FitRow (key.now, value.now) }
{
    match key {
        [first, rest @ ..] if *first == tag => is_right_row(alloc, tag, rest, value),
        _ => Ok(true),
    }
}

/// Whether each row of this tag is right.
fn are_right_at(alloc: Global, tag: u8, rows: &Rows) -> Result<bool, AllocError>
    ensures right { IfOk result (λ right. right ≡ true
        → FitRows (fin.entries rows.now) × (are_right_at tag (fin.entries rows.now) ≡ true)) }
    ensures wrong { IfOk result (λ right. right ≡ false → WrongRow tag (fin.entries rows.now)) }
{
    for (key, value) in rows.by_key() {
        if !is_right_at(alloc, tag, key.as_slice(), value.as_slice())? {
            return Ok(false);
        }
    }
    Ok(true)
}

/// Whether the rows of this tag are those of the world that the rows open to.
pub fn is_right_alone(alloc: Global, tag: u8, rows: &Rows) -> Result<bool, AllocError>
    // The tags of boots, sessions, data and watches, and those that no key has.
    requires { StandsAlone tag }
    ensures right { IfOk result (λ right. right ≡ true → (scale : Scale) → AgreesAt rows.now scale tag) }
    ensures wrong { IfOk result (λ right. right ≡ false → (scale : Scale) → DiffersAt rows.now scale tag) }
{
    are_right_at(alloc, tag, rows)
}
