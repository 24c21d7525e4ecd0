//! Checks a module against its listing. The checks come in the order of `ModuleFault`, and digests are computed last,
//! each once.
ghost use Rattle.std.specs.Prelude.{◌≡◌, ◌≤◌, length};
ghost use Rattle.apex_base.specs.Answers.{Answers};
ghost use Rattle.apex_base.specs.Results.{pass};
ghost use Rattle.module_digest.specs.Faults.{listing_fault, text_fault, entries_fault, first_fault, unlisted, absent};
ghost use Rattle.module_digest.specs.Faults.{differs, is_listed};
ghost use Rattle.module_digest.specs.Listing.{listed_files};

use crate::digits::digest_of;
use crate::known::known;
use crate::lines::{Entry, read_entries};
use apex_base::{FilePath, Module, ModuleFault, Why};
use std::alloc::Global;

/// Why a check of a listing failed: the first fault in the order of `ModuleFault`, or out of memory.
pub type CheckWhy = Why<ModuleFault>;

/// Checks the module against its listing. `Fault` has the first fault, in the order of `ModuleFault` from
/// `NoListing` on; `NoMemory` is answered only if memory runs out.
pub fn check_listing(alloc: Global, directory: &Module) -> Result<(), CheckWhy>
    ensures { Answers result (pass (listing_fault directory.now)) }
{
    known(directory);
    match directory.get(&FilePath::listing()) {
        Some(text) => check_text(alloc, directory, text),
        None => Err(CheckWhy::Fault(ModuleFault::NoListing)),
    }
}

fn check_text(alloc: Global, directory: &Module, text: &[u8]) -> Result<(), CheckWhy>
    requires { length text.now ≤ 1048576 }
    ensures { Answers result (pass (text_fault directory.now text.now)) }
{
    let entries = read_entries(alloc, text)?;
    match entries_fault(directory, entries.as_slice()) {
        Some(fault) => Err(CheckWhy::Fault(fault)),
        None => Ok(()),
    }
}

fn entries_fault(directory: &Module, entries: &[Entry]) -> Option<ModuleFault>
    ensures { result ≡ entries_fault directory.now entries.now }
{
    if let Some(fault) = unlisted_fault(directory, entries) {
        return Some(fault);
    }
    if let Some(fault) = absent_fault(directory, entries) {
        return Some(fault);
    }
    differing_fault(directory, entries)
}

/// The first listed file whose content has another digest.
fn differing_fault(directory: &Module, entries: &[Entry]) -> Option<ModuleFault>
    ensures { result ≡ first_fault (differs directory.now) entries.now }
{
    for entry in entries {
        if let Some(fault) = differs(directory, entry) {
            return Some(fault);
        }
    }
    None
}

fn differs(directory: &Module, entry: &Entry) -> Option<ModuleFault>
    ensures { result ≡ differs directory.now entry.now }
{
    let content = directory.get(&entry.path)?;
    let actual = digest_of(content);
    if actual == entry.digest {
        return None;
    }
    Some(ModuleFault::Differs {
        path: entry.path,
        listed: entry.digest,
        actual,
    })
}

/// The first listed path that isn't a file.
fn absent_fault(directory: &Module, entries: &[Entry]) -> Option<ModuleFault>
    ensures { result ≡ first_fault (absent directory.now) entries.now }
{
    for entry in entries {
        if directory.get(&entry.path).is_none() {
            return Some(ModuleFault::Absent { path: entry.path });
        }
    }
    None
}

/// The least file, other than the listing, that the listing lacks.
fn unlisted_fault(directory: &Module, entries: &[Entry]) -> Option<ModuleFault>
    ensures { result ≡ first_fault (unlisted entries.now) (listed_files directory.now) }
{
    let own = FilePath::listing();
    for (path, _) in directory.files() {
        if *path != own && !is_listed(entries, path) {
            return Some(ModuleFault::Unlisted { path: *path });
        }
    }
    None
}

fn is_listed(entries: &[Entry], path: &FilePath) -> bool
    ensures { result ≡ is_listed entries.now path.now }
{
    entries.iter().any(|entry| *path == entry.path)
}
