//! Rows of files: whether each module that is kept is there, is sound, and says its part's name and version.
ghost use Rattle.std.specs.Prelude.{◌≡◌, ◌<◌, ℕ, Decides, IfOk, true, false};
ghost use Rattle.std.specs.List.{AllByRecursion};
ghost use Rattle.apex_base.specs.declared.numbers.SessionId.{SessionId as Id};
ghost use Rattle.apex_base.specs.Held.{is_target, kept};
ghost use Rattle.apex_base.specs.Modules.{IsModule};
ghost use Rattle.apex_base.specs.Text.{path_of};
ghost use Rattle.apex_world.specs.Decided.{says};
ghost use Rattle.apex_world.specs.Opened.{opened, opened_boots, opened_files, opened_sessions};
ghost use Rattle.apex_world.specs.Soundness.{checked};
ghost use Rattle.package_store.specs.Keeping.{has_part};
ghost use Rattle.session_record.specs.Room.{HasPartNumber};
ghost use Rattle.package_store.specs.Settled.{HaveParts};
ghost use Rattle.session_check.specs.LawfulSessions.{AreLawfulSessions};
ghost use Rattle.world_check.specs.FilesRead.{with_file, IsTooMuch};
ghost use Rattle.world_check.specs.LawfulParts.{HasLawfulModules};
ghost use Rattle.world_check.specs.RightModules.{if_module, less_module, less_target, less_parts, less_sessions};

use apex_base::{
    Bytes, FilePath, Module, Name, Part, PutWhy, Record, Scale, SessionId, Target, Version,
};
use apex_manifest::ManifestWhy;
use apex_world::check_module;
use package_store::{KeptParts, held_by_name};
use row_key::{file_front, path_in};
use row_map::Rows;
use std::alloc::{AllocError, Global};

/// The greatest length of a file in bytes.
const LENGTH: usize = 1048576;

/// Whether each module that is kept is there, is sound, and says its part's name and version, and all are within the
/// scale. It hashes each of them once, and has one of them in memory at a time. Fails only if memory runs out.
pub(crate) fn are_lawful_modules(
    alloc: Global,
    rows: &Rows,
    sessions: &[Record],
    scale: Scale,
) -> Result<bool, AllocError>
    requires sessions { sessions.now ≡ opened_sessions rows.now }
    requires lawful { AreLawfulSessions (opened_boots rows.now).0 sessions.now }
    ensures { IfOk result (λ lawful. Decides lawful (HasLawfulModules (opened rows.now scale))) }
{
    let kept = kept_parts(alloc, sessions)?;
    let left = take_sessions(alloc, rows, &kept, sessions, scale.file_weight())?;
    Ok(left.is_some())
}

/// The modules that the sessions keep.
fn kept_parts(alloc: Global, sessions: &[Record]) -> Result<KeptParts, AllocError>
    ensures { IfOk result (λ parts. (session : Id) (part : ℕ)
        → has_part parts session part ≡ is_target (kept sessions.now) session part) }
{
    let held = held_by_name(alloc, sessions)?;
    KeptParts::of(alloc, sessions, &held)
}

/// What is left of a weight once the modules that are kept are taken, or None if one isn't right, or they weigh more.
fn take_sessions(
    alloc: Global,
    rows: &Rows,
    kept: &KeptParts,
    sessions: &[Record],
    left: u64,
) -> Result<Option<u64>, AllocError>
    requires { HaveParts sessions.now }
    ensures { IfOk result (λ rest. rest ≡ less_sessions rows.now (has_part kept.now) left sessions.now) }
{
    let mut rest = left;
    for r in sessions {
        match take_parts(alloc, rows, kept, r, rest)? {
            Some(less) => rest = less,
            None => return Ok(None),
        }
    }
    Ok(Some(rest))
}

/// The same for the modules that a session submitted.
fn take_parts(
    alloc: Global,
    rows: &Rows,
    kept: &KeptParts,
    r: &Record,
    left: u64,
) -> Result<Option<u64>, AllocError>
    requires { AllByRecursion (λ p. HasPartNumber p.target) r.now.parts }
    ensures { IfOk result (λ rest. rest ≡ less_parts rows.now (has_part kept.now) r.now.id left r.now.parts) }
{
    let mut rest = left;
    for p in r.parts.as_slice() {
        match take_part(alloc, rows, kept, r.id, p, rest)? {
            Some(less) => rest = less,
            None => return Ok(None),
        }
    }
    Ok(Some(rest))
}

/// The same for the module of a part, if the session of this id submitted it.
fn take_part(
    alloc: Global,
    rows: &Rows,
    kept: &KeptParts,
    id: SessionId,
    p: &Part,
    left: u64,
) -> Result<Option<u64>, AllocError>
    requires { HasPartNumber p.now.target }
    ensures { IfOk result
        (λ rest. rest ≡ less_target rows.now (has_part kept.now) id p.now.name left p.now.target) }
{
    match p.target {
        Target::Preinstalled => Ok(Some(left)),
        Target::Module {
            session,
            part,
            version,
        } => {
            if session.0 == id.0 && kept.has(session, part) {
                match module_in(alloc, rows, session, part)? {
                    Some(content) => less_module(alloc, &p.name, version, left, &content),
                    None => Ok(None),
                }
            } else {
                Ok(Some(left))
            }
        }
    }
}

/// What is left once a module is taken, if it is sound, and says this name and version.
fn less_module(
    alloc: Global,
    name: &Name,
    version: Version,
    left: u64,
    content: &Module,
) -> Result<Option<u64>, AllocError>
    ensures { IfOk result (λ rest. rest ≡ less_module name.now version left content.now) }
{
    if says(alloc, content, name, version)? {
        Ok(left.checked_sub(content.weight()))
    } else {
        Ok(None)
    }
}

/// Whether a module is sound, and says this name and version.
fn says(alloc: Global, content: &Module, name: &Name, version: Version) -> Result<bool, AllocError>
    ensures { IfOk result (λ b. b ≡ says (checked content.now) name.now version) }
{
    match check_module(alloc, content) {
        Ok(manifest) => Ok(manifest.name.is_same(name) && manifest.version == version),
        Err(ManifestWhy::Fault(_)) => Ok(false),
        Err(ManifestWhy::NoMemory) => Err(AllocError),
    }
}

/// The module that this part of a session submitted, or None if the rows have more files of it than a module may have,
/// or a longer one. It reads the rows of these files, and one more.
fn module_in(
    alloc: Global,
    rows: &Rows,
    session: SessionId,
    part: u32,
) -> Result<Option<Module>, AllocError>
    requires { part < 256 }
    ensures { IfOk result (λ found. found ≡ if_module (opened_files rows.now session part)) }
{
    let start = file_front(session, part).to_vec(alloc)?;
    let mut files = Module::new(alloc);
    for (key, content) in rows.by_key().range(&start..) {
        let Some(path) = path_in(session, part, key) else {
            break;
        };
        if !add_file(alloc, &mut files, path, content)? {
            return Ok(None);
        }
    }
    known_module(&files);
    Ok(Some(files))
}

/// States for proofs that a module is within its limits. It does nothing.
fn known_module(files: &Module)
    ensures { IsModule files.now }
{
    let _ = files.files();
}

/// Puts a file into a module, if its path is one. False if the module can't have it.
fn add_file(
    alloc: Global,
    files: &mut Module,
    path: &[u8],
    content: &Bytes,
) -> Result<bool, AllocError>
    ensures put { IfOk result
        (λ has. has ≡ true → files.new ≡ with_file (path_of path.now) content.now files.old) }
    ensures full { IfOk result (λ has. has ≡ false → IsTooMuch files.old path.now content.now) }
{
    let Some(path) = FilePath::read(path) else {
        return Ok(true);
    };
    if content.as_slice().len() > LENGTH {
        return Ok(false);
    }
    match files.put(path, content.share(alloc)?) {
        Ok(()) => Ok(true),
        Err(PutWhy::NoMemory) => Err(AllocError),
        Err(PutWhy::Files) => Ok(false),
        Err(PutWhy::Large { .. }) => Ok(false),
    }
}
