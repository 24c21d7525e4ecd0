//! The rows of a module's files.
ghost use Rattle.std.specs.Prelude.{◌≡◌, ◌++◌, OnOk};
ghost use Rattle.std.specs.FinMap as fin;
ghost use Rattle.session_record.specs.Room.{HasPartNumber};
ghost use Rattle.call_judge.specs.Taken.{taken, files_taken};

use apex_base::{Listed, Target};
use row_codec::Row;
use row_key::file_front;
use row_map::Rows;
use std::alloc::{AllocError, Global};

/// Adds to a batch that the rows of a module's files go: each that is there, ascending by key.
pub(crate) fn take_files(
    alloc: Global,
    rows: &Rows,
    target: Target,
    batch: &mut Vec<Row>,
) -> Result<(), AllocError>
    requires { HasPartNumber target }
    ensures { OnOk result (batch.new.items ≡ batch.old.items ++ files_taken rows.now target) }
{
    match target {
        Target::Preinstalled => Ok(()),
        Target::Module {
            session,
            part,
            version: _,
        } => take_rows(alloc, rows, &file_front(session, part), batch),
    }
}

/// Adds to a batch that the rows whose keys begin so go. It reads these rows, and one more.
fn take_rows(
    alloc: Global,
    rows: &Rows,
    front: &[u8],
    batch: &mut Vec<Row>,
) -> Result<(), AllocError>
    ensures { OnOk result (batch.new.items ≡ batch.old.items ++ taken front.now (fin.keys rows.now)) }
{
    let start = front.to_vec(alloc)?;
    for (key, _) in rows.by_key().range(&start..) {
        if !key.starts_with(front) {
            break;
        }
        let key = Listed::of(key.as_slice().to_vec(alloc)?);
        batch.push(Row { key, value: None })?;
    }
    Ok(())
}
