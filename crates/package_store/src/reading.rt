//! Reading a module.
ghost use Rattle.std.specs.Prelude.{◌≡◌, IfOk, IsTrue, None, OnOk};
ghost use Rattle.std.specs.FinMap as fin;
ghost use Rattle.apex_base.specs.Modules.{IsModule, put_fault};
ghost use Rattle.apex_base.specs.RowSums.{module_at};
ghost use Rattle.apex_base.specs.Text.{is_path};
ghost use Rattle.row_map.specs.Rows.{rows_of};

use apex_base::{Bytes, FilePath, Module, PutWhy, SessionId};
use row_key::path_in;
use std::alloc::{AllocError, Global};
use std::collections::BTreeMap;

/// The module that this part of a session submitted.
pub fn module_of(
    alloc: Global,
    rows: &BTreeMap<Vec<u8>, Bytes>,
    session: SessionId,
    part: u32,
) -> Result<Module, AllocError>
    requires { IsModule (module_at (rows_of rows.now.entries) session part) }
    ensures { IfOk result (λ files. files ≡ module_at (rows_of rows.now.entries) session part) }
{
    let mut files = Module::new(alloc);
    for (key, content) in rows {
        if let Some(path) = path_in(session, part, key) {
            add_file(alloc, &mut files, path, content)?;
        }
    }
    Ok(files)
}

/// Puts a file that can be put.
fn add_file(
    alloc: Global,
    files: &mut Module,
    path: &[u8],
    content: &Bytes,
) -> Result<(), AllocError>
    requires named { IsTrue (is_path path.now) }
    requires fits { put_fault files.old path.now content.now ≡ None }
    ensures { OnOk result (files.new ≡ fin.insert files.old path.now content.now) }
{
    let Some(path) = FilePath::read(path) else {
        unreachable!()
    };
    match files.put(path, content.share(alloc)?) {
        Ok(()) => Ok(()),
        Err(PutWhy::NoMemory) => Err(AllocError),
        Err(PutWhy::Files) => unreachable!(),
        Err(PutWhy::Large { .. }) => unreachable!(),
    }
}
