//! Whether the world that rows open to is lawful, from the tests of the other modules.
ghost use Rattle.std.specs.Prelude.{◌≡◌, Decides, IfOk};
ghost use Rattle.apex_world.specs.Lawful.{Lawful};
ghost use Rattle.apex_world.specs.Opened.{opened, opened_boots, opened_sessions};
ghost use Rattle.row_check.specs.BadRows.{opened_rows};

use crate::counts::are_lawful_counts;
use crate::data::is_lawful_data;
use crate::modules::are_lawful_modules;
use crate::watches::are_lawful_watches;
use apex_base::Scale;
use row_check::OpenedRows;
use row_map::Rows;
use session_check::are_lawful;
use std::alloc::{AllocError, Global};

/// Whether the world is lawful that these rows open to. They are the rows of that world, and `found` is what they open
/// to. It takes n log n steps for n rows, and hashes each module that is kept once. Fails only if memory runs out.
pub fn is_lawful(
    alloc: Global,
    rows: &Rows,
    found: &OpenedRows,
    scale: Scale,
) -> Result<bool, AllocError>
    requires right { opened_rows rows.now scale ≡ rows.now }
    requires sessions { found.now.sessions.items ≡ opened_sessions rows.now }
    requires boots { (found.now.boots.count, found.now.boots.moments.items) ≡ opened_boots rows.now }
    ensures { IfOk result (λ lawful. Decides lawful (Lawful (opened rows.now scale))) }
{
    let sessions = found.sessions.as_slice();
    let boots = &found.boots;
    if !are_lawful(alloc, sessions, boots.count)? {
        return Ok(false);
    }
    if !are_lawful_counts(sessions, boots, scale) {
        return Ok(false);
    }
    if !are_lawful_watches(rows, scale) {
        return Ok(false);
    }
    if !is_lawful_data(alloc, rows, sessions, scale)? {
        return Ok(false);
    }
    are_lawful_modules(alloc, rows, sessions, scale)
}
